//! What tests of several crates are made with: commands from lines of words, and a taker that copies values.
#![tactic(auto)]

pub mod asking;
pub mod copier;
