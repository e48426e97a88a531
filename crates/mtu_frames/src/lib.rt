//! Replies as frames of a bounded size: what each frame is, and how a joiner puts the replies together again from
//! frames that come in any order and any number of times.
#![tactic(auto)]

mod error;
mod head;
mod held;
mod joiner;
pub mod laws;

pub use error::BadFrame;
pub use head::header;
pub use joiner::{Joiner, Missing, Taken};
