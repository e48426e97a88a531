//! Commands: what a request asks for, by tests in a fixed order, and its parts, one for each key.
#![tactic(auto)]

mod command;
mod need;
mod op;
mod options;
mod table;
mod tested;

pub use command::Command;
pub use op::Op;
