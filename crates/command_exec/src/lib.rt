//! Commands, run on the store: their parts in order, and one reply of what these answered.
#![tactic(auto)]

mod answering;
mod executing;
mod lines;
mod parts;
mod pass;
mod shop;

pub use executing::{ExecError, execute, execute_needing};
pub use pass::Pass;
pub use shop::Shop;
