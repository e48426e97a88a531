//! Commands from a source that is read in pieces.
#![tactic(auto)]

mod pump;

pub use pump::Pump;
