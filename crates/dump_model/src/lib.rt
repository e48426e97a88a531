//! What a dump of all shards says, as definitions over whole journals in `specs/`, and what they imply.
#![tactic(auto)]

pub mod laws;
