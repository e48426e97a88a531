//! A dump of all shards.
ghost use Rattle.std.specs.Prelude.{◌≡◌, ◌+◌, ◌*◌, ◌≤◌, [], false, length, IfOk, IfErr, OnErr};
ghost use Rattle.any_wire.specs.Sends.{Sends};
ghost use Rattle.pin_core.specs.Buffers.{buffers};
ghost use Rattle.pin_dump.specs.Dumps.{TookDump, HasTakenHolds, HoldsFor, IsEmptied, IsSameSeat, KeepsDeeds};
ghost use Rattle.pin_dump.specs.Dumps.{PutsAndFlushes};
ghost use Rattle.frag_value.specs.Pins.{all_frags};

use crate::giving::give_back;
use crate::pairs::put_pairs;
use crate::sizes::pairs_size;
use crate::taking::take_all;
use any_wire::{WireCalls, flush_unless_failed};
use flake_base::Memory;
use frag_value::PinnedPair;
use order_book::{Book, BookName, SessionSeat};
use pinned_pool::{Pool, PoolName, PoolSeat};
use shard_store::Store;
use std::alloc::Global;
use std::marker::Model;
use std::sync::Wait;

/// What all shards had, each at one point of its history, kept by pinned holds of the dump's seat. Contracts see the
/// points, the text, and the seat.
#[derive(Drop)]
pub struct Dump<P: PoolName> {
    pub(crate) seat: PoolSeat<P>,
    pub(crate) pairs: Vec<PinnedPair<P>>,
    pub(crate) points: Vec<u64>,
    pub(crate) len: u64,
}

/// What came of putting a dump on a wire: its points, the seat without its holds, how long the text is, and whether a
/// put or the flush failed.
#[derive(Drop)]
pub struct Written<P: PoolName> {
    /// How many deeds of each shard it stands behind.
    pub points: Vec<u64>,
    pub seat: PoolSeat<P>,
    pub bytes: u64,
    pub failed: bool,
}

impl<P: PoolName> Model for Dump<P> {
    ghost use Rattle.pin_dump.specs.Dumps.{DumpView, IsHeldDump, dump_view};

    ghost Value = { DumpView };

    ghost view = { λ d. dump_view d.points.items d.pairs.items d.seat };

    ghost invariant = { λ d. IsHeldDump d.len d.pairs.items d.seat };
}

// The seat without its holds, which go with the values.
fn emptied<P: PoolName>(
    pool: &Pool<P>,
    mut seat: PoolSeat<P>,
    pairs: Vec<PinnedPair<P>>,
) -> PoolSeat<P>
    requires { HoldsFor seat.holds (all_frags pairs.items) }
    ensures { IsEmptied seat result }
{
    give_back(pool, &mut seat, pairs);
    seat
}

impl<P: PoolName> Dump<P> {
    /// Takes each shard, in ascending order, at one point of its history. After want of memory, which a text too long
    /// for its length to be counted is as well, the seat comes back without holds.
    pub fn take<R: Wait, N: BookName>(
        rt: &R,
        alloc: Global,
        pool: &Pool<P>,
        book: &Book<N>,
        store: &Store<N, P>,
        seat: PoolSeat<P>,
        mine: &mut SessionSeat<N>,
    ) -> Result<Dump<P>, (Memory, PoolSeat<P>)>
        requires holds { seat.holds ≡ [] }
        requires credits { N.sizes.shards * buffers P.sizes + 4 ≤ seat.credits }
        ensures taken { IfOk result (λ d. TookDump N.sizes.shards mine.old mine.new d.points d.text) }
        ensures kept { IfOk result (λ d. HasTakenHolds seat d.seat) }
        ensures unspent { IfOk result (λ d. (d.seat.returns ≡ seat.returns) × (d.seat.lasts ≡ seat.lasts)) }
        ensures refused { IfErr result (λ e. IsSameSeat seat e.1) }
        ensures deeds { KeepsDeeds mine.old mine.new }
    {
        let mut seat = seat;
        let mut pairs = Vec::new(alloc);
        let mut points = Vec::new(alloc);
        match take_all(
            rt,
            pool,
            book,
            store,
            &mut seat,
            mine,
            &mut pairs,
            &mut points,
        ) {
            Ok(()) => {
                let len = pairs_size(pairs.as_slice());
                if len == u64::MAX {
                    return Err((Memory, emptied(pool, seat, pairs)));
                }
                Ok(Dump {
                    seat,
                    pairs,
                    points,
                    len,
                })
            }
            Err(Memory) => Err((Memory, emptied(pool, seat, pairs))),
        }
    }

    /// How many deeds of each shard it stands behind.
    pub fn points(&self) -> &[u64]
        ensures { result.now ≡ self.now.points }
    {
        self.points.as_slice()
    }

    /// Puts the text, in pieces of at most 512 bytes and nothing after a failed put, and flushes the wire. All holds
    /// are given back. It takes no memory.
    pub fn write<W: Drop, C: WireCalls<W>>(
        self,
        pool: &Pool<P>,
        wire: W,
        calls: &C,
    ) -> (W, Written<P>)
        requires puts { C.can_put calls.now }
        requires flushes { C.can_flush calls.now }
        ensures puts { Sends (C.put_may calls.now) (C.flush_may calls.now) false result.1.failed
            self.text wire result.0 }
        ensures flushed { PutsAndFlushes (C.put_may calls.now) (C.flush_may calls.now)
            result.1.failed self.text wire result.0 }
        ensures points { result.1.points.items ≡ self.points }
        ensures bytes { result.1.bytes ≡ length self.text }
        ensures seat { IsEmptied self.seat result.1.seat }
    {
        let Dump {
            mut seat,
            pairs,
            points,
            len,
        } = self;
        let (put_all, failed) = put_pairs(pool, &mut seat, pairs.as_slice(), wire, false, calls);
        let (flushed, failed) = flush_unless_failed(put_all, failed, calls);
        let seat = emptied(pool, seat, pairs);
        let written = Written {
            points,
            seat,
            bytes: len,
            failed,
        };
        (flushed, written)
    }
}
