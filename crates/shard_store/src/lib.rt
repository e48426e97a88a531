//! The store: shards of values, each behind a lock of its own, whose histories say what was answered.
#![tactic(auto)]

mod asked;
mod done;
mod image;
mod locks;
mod parts;
mod seats;
mod shard;
mod store;

pub use asked::{AskedPart, Commons};
pub use image::ShardImage;
pub use parts::Parts;
pub use seats::open_seats;
pub use shard_core::PartAnswer;
pub use shard_part::{Part, PartOp, shard_of};
pub use store::{Store, is_shared};
