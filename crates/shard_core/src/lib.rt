//! One shard of the store: a map from keys to values whose fragments its seat holds, and what a part of a command does
//! to it.
#![tactic(auto)]

mod adding;
mod answer;
mod carrying;
mod giving;
mod kept;
pub mod laws;
mod pinning;
mod placing;
mod reading;
mod setting;
mod shard_map;
mod showing;
mod slot;

pub use answer::PartAnswer;
pub use shard_map::ShardMap;
