//! Files of frames of a bounded size, which are read whole and put together to replies.
#![tactic(auto)]

mod cutting;
mod error;
mod joining;
pub mod laws;
mod putting;
mod source;

pub use error::JoinError;
pub use putting::put_joined;
pub use source::join_source;
