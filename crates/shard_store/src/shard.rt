//! What stands behind a shard's lock.
ghost use Rattle.std.specs.Prelude.{◌≡◌, ◌+◌, ◌<◌, ◌≤◌, length, IfOk, OnErr};
ghost use Rattle.flake_model.specs.Journal.{shard_of as shard_of_key};
ghost use Rattle.frag_value.specs.Fragments.{frags_limit};
ghost use Rattle.flake_base.specs.Limits.{value_limit};
ghost use Rattle.order_book.specs.Pages.{new_shard};
ghost use Rattle.shard_core.specs.Done.{is_taking, is_ranged};
ghost use Rattle.shard_core.specs.ShardMaps.{IsBare};
ghost use Rattle.shard_core.specs.Takers.{MayTake, KeepsTaker, taking};
ghost use Rattle.shard_part.specs.Parts.{operation_of};
ghost use Rattle.shard_core.specs.Parts.{PartEnds};
ghost use Rattle.pin_core.specs.Buffers.{buffers};
ghost use Rattle.shard_store.specs.Shards.{IsFreeAfter};
ghost use Rattle.shard_store.specs.Images.{IsImage};

use crate::asked::{AskedPart, Commons};
use crate::done::DonePart;
use crate::image::ShardImage;
use flake_base::{Entry, Memory, Segs};
use frag_value::{PlaceError, Taker};
use order_book::{Book, BookName, SessionSeat, ShardSeat};
use pinned_pool::{Pool, PoolName, PoolSeat};
use shard_core::{PartAnswer, ShardMap};
use std::alloc::Global;
use std::marker::Model;
use std::snapshot::Snapshot;

/// A shard map of values, and the history that led to them. Contracts see the shard's number and its deeds.
///
/// Processors take a written line of 64 bytes from one another. So what every part writes, the journal's length, stands
/// beside the lock, and the words behind the values make a shard with its lock four lines long: no two shards have a
/// line in common that parts write, and all locks are at one place of their lines.
#[derive(Drop)]
pub(crate) struct Shard<N: BookName, P: PoolName, const I: u16> {
    pub(crate) journal: Vec<Entry>,
    pub(crate) seat: ShardSeat<N>,
    pub(crate) shard_map: ShardMap<P>,
    pub(crate) apart: [u64; 11],
}

impl<N: BookName, P: PoolName, const I: u16> Model for Shard<N, P, I> {
    ghost use Rattle.order_book.specs.Pages.{ShardList};
    ghost use Rattle.shard_store.specs.Shards.{IsShard};

    ghost Value = { ShardList };

    ghost view = { λ s. s.seat };

    ghost invariant = { λ s. IsShard P.sizes I s.shard_map s.seat s.journal.items };
}

// Where a part may store a value, its claims begin where it says. One that reads writes no word of the map.
#[inline(always)]
fn claim_for<P: PoolName>(shard_map: &mut ShardMap<P>, asked: &AskedPart<'_>)
    ensures { shard_map.new ≡ shard_map.old }
{
    if asked.part.op.takes_value() {
        shard_map.claim_from(asked.start);
    }
}

impl<N: BookName, P: PoolName, const I: u16> Shard<N, P, I> {
    pub(crate) fn new(alloc: Global, own: PoolSeat<P>, seat: ShardSeat<N>) -> Self
        requires bare { IsBare own }
        requires seat { seat ≡ new_shard I }
        ensures { result ≡ seat }
    {
        Shard {
            shard_map: ShardMap::new(alloc, own),
            seat,
            journal: Vec::new(alloc),
            apart: [0; 11],
        }
    }

    /// Does the part, and enters it last in the shard's history and in the session's list.
    pub(crate) fn run<T: Taker<P>>(
        &mut self,
        commons: &Commons<'_, N, P>,
        payer: &mut PoolSeat<P>,
        mine: &mut SessionSeat<N>,
        asked: &AskedPart<'_>,
        taker: &mut T,
        stored: &mut Segs,
    ) -> Result<PartAnswer, Memory>
        requires here { shard_of_key N.sizes.shards asked.now.part.key.now ≡ I }
        requires session { asked.now.at.session ≡ mine.old.number }
        requires few { length asked.now.part.value.now ≤ value_limit }
        requires credits { 1 < payer.old.credits }
        requires spare { frags_limit ≤ stored.old.spare }
        requires taker { let op = operation_of asked.now.part in
            MayTake (is_taking op) (is_ranged op) (taking T.Taker taker.old) }
        ensures part { PartEnds P.sizes N.sizes.shards asked.now.at (operation_of asked.now.part) result
            (record { list = mine.old; seat = payer.old; stored = stored.old.items; taken = T.taken taker.old })
            (record { list = mine.new; seat = payer.new; stored = stored.new.items; taken = T.taken taker.new }) }
        ensures free { IsFreeAfter self.old.told (operation_of asked.now.part) result payer.old payer.new }
        ensures spare { stored.old.spare + length stored.old.items ≤ stored.new.spare + length stored.new.items }
        ensures taker { let range = is_ranged (operation_of asked.now.part) in
            KeepsTaker range (taking T.Taker taker.old) (taking T.Taker taker.new) }
    {
        self.journal.reserve(1)?;
        self.shard_map.is_shard_map();
        claim_for(&mut self.shard_map, asked);
        let from = stored.len();
        match self
            .shard_map
            .apply(commons.pool, payer, &asked.part, taker, stored)
        {
            Ok(answer) => {
                self.shard_map.is_shard_map();
                let deed = DonePart {
                    at: asked.at,
                    part: asked.part,
                    history: Snapshot::of(&self.seat),
                    stored: &stored.as_slice()[from..],
                };
                commons.book.meet(&mut self.seat, mine, &deed);
                self.journal.push_reserved(asked.at);
                Ok(answer)
            }
            Err(PlaceError::NoBuffer(none)) => Ok(PartAnswer::NoBuffer(none)),
            Err(PlaceError::Memory) => Err(Memory),
        }
    }

    /// Pins all values, and shows the session the list of the deeds that led to them. After want of memory nothing has
    /// changed.
    pub(crate) fn pin(
        &mut self,
        pool: &Pool<P>,
        book: &Book<N>,
        seat: &mut PoolSeat<P>,
        mine: &mut SessionSeat<N>,
    ) -> Result<ShardImage<P>, Memory>
        requires credits { buffers P.sizes + 4 ≤ seat.old.credits }
        ensures image { IfOk result (λ i. IsImage P.sizes I i.place i.pairs.items
            mine.old mine.new seat.old seat.new) }
        ensures memory { OnErr result ((seat.new ≡ seat.old) × (mine.new ≡ mine.old)) }
    {
        let pairs = self.shard_map.pin_all(pool, seat)?;
        seat.is_seat();
        let place = book.both_lists(&mut self.seat, mine);
        Ok(ShardImage { place, pairs })
    }
}
