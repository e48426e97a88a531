//! A place for one value that threads lend one another: who takes it has it alone until he gives it back. What is true
//! of each value that lies there may speak of a key, which is fixed when the place is made.
#![tactic(auto)]

mod place;
mod plays;
mod rule;

pub use place::{HandoverSlot, Loan};
pub use rule::Fits;
