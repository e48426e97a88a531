//! The replies that a journal gives, computed by definition from the inputs and the histories, and the verdict on
//! replies that are given.
#![tactic(auto)]

mod answering;
mod commands;
mod difference;
mod error;
mod order;
mod place;
mod replay;
mod replies;
mod session;
mod slots;
mod verdict;

pub use answering::answers;
pub use error::AnswerError;
pub use verdict::{Verdict, check};
