//! A store of byte strings, and what a part of a command does there.
#![tactic(auto)]

mod store;
mod table;

pub use store::{ByteAnswer, ByteStore};
