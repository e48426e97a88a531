//! Plans a reply: what is short is copied into staging buffers, what is long stays where it lies.
#![tactic(auto)]

mod comparing;
mod copying;
mod error;
mod filling;
mod history;
mod laying;
mod lists;
mod packing;
mod parcel;
mod plan;
mod returning;
mod sealing;
mod stage;
mod taking;
mod terms;

pub use error::OpenError;
pub use parcel::Parcel;
pub use plan::Plan;
pub use reply_layout::Need;
pub use returning::give_back;
pub use stage::{STAGE_SIZE, Stage};
pub use terms::Terms;
