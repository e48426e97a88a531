//! The store's shards: what a command asks of one key, and which shard a key belongs to.
#![tactic(auto)]

mod hash;
mod part;
mod setting;

pub use flake_base::VALUE_LIMIT;
pub use hash::shard_of;
pub use part::{Part, PartOp};
pub use setting::{Setting, When};
