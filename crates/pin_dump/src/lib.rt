//! A dump of all shards: taken while sessions go on, kept by pinned holds, and put on a wire later.
#![tactic(auto)]

mod dump;
mod giving;
pub mod laws;
mod pairs;
mod putting;
mod sizes;
mod taking;
mod values;

pub use dump::{Dump, Written};
