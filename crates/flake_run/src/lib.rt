//! A key-value server over files: requests from a file, replies to a wire; over any host, any wires and any runtime.
#![tactic(auto)]

mod boxed;
mod check;
mod drive;
mod driving;
mod files;
mod finding;
mod generated;
mod join;
mod opening;
mod outcome;
pub mod run;
mod schedule;
mod serve;
mod source;
mod tell;
mod total;
mod words;

pub use outcome::{Detail, OUT_OF_MEMORY, Opened, Outcome, Refusal};
