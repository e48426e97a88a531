use flake_base::{Entry, Seg};
use order_book::{BookName, Deed, ShardSeat};
use shard_part::Part;
use std::snapshot::Snapshot;

/// A part that was done. What it answered and found is by the definitions what its shard's history gives; what it
/// stored is in the segments.
#[derive(Drop)]
pub(crate) struct DonePart<'a, N: BookName> {
    pub(crate) at: Entry,
    pub(crate) part: Part<'a>,
    pub(crate) history: Snapshot<ShardSeat<N>>,
    pub(crate) stored: &'a [Seg],
}

impl<N: BookName> Deed for DonePart<'_, N> {
    ghost use Rattle.shard_part.specs.Parts.{operation_of};
    ghost use Rattle.shard_store.specs.Shards.{answer_after, found_after, first_after, segment_addresses};

    ghost at = { λ d. d.at };

    ghost operation = { λ d. operation_of d.part };

    ghost answer = { λ d. answer_after d.history.value.told (operation_of d.part) };

    ghost found = { λ d. found_after d.history.value.told (operation_of d.part) };

    ghost first = { λ d. first_after d.history.value.told (operation_of d.part) };

    ghost stored = { λ d. segment_addresses d.stored.now };

    fn entry(&self) -> Entry {
        self.at
    }
}
