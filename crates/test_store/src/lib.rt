//! Tests of sorted keys, of shards, of the store, and of commands on it, by public items.
#![tactic(auto)]

#[cfg(test)]
mod calls;
#[cfg(test)]
mod checks;
#[cfg(test)]
mod keys;
#[cfg(test)]
mod shard_maps;
#[cfg(test)]
mod stores;
