//! Requests that are generated from a number: which ones a session makes, and their text as an input.
#![tactic(auto)]

mod draws;
mod input;
pub mod laws;
mod request;
mod words;

pub use draws::Draws;
pub use input::session_input;
pub use request::{DrawnRequest, Key, next_request};
