//! One of the shards' locks.
ghost use Rattle.std.specs.Prelude.{◌≡◌, ◌+◌, ◌<◌, ◌≤◌, true, nat_lt, min, is_some, length, IfOk, OnErr};
ghost use Rattle.view_sums.specs.Total.{Each};
ghost use Rattle.flake_model.specs.Journal.{shard_of};
ghost use Rattle.frag_value.specs.Fragments.{frags_limit};
ghost use Rattle.flake_base.specs.Limits.{value_limit};
ghost use Rattle.order_book.specs.Pages.{new_shards};
ghost use Rattle.shard_core.specs.Done.{is_taking, is_ranged};
ghost use Rattle.shard_core.specs.ShardMaps.{IsBare};
ghost use Rattle.shard_core.specs.Takers.{MayTake, KeepsTaker, taking};
ghost use Rattle.shard_part.specs.Parts.{operation_of};
ghost use Rattle.shard_core.specs.Parts.{PartEnds};
ghost use Rattle.pin_core.specs.Buffers.{buffers};
ghost use Rattle.shard_store.specs.Images.{IsImage};

use crate::asked::{AskedPart, Commons};
use crate::image::ShardImage;
use crate::shard::Shard;
use flake_base::{Memory, Segs};
use frag_value::Taker;
use order_book::{Book, BookName, SessionSeat, ShardSeats};
use pinned_pool::{Pool, PoolName, PoolSeat, PoolSeats};
use shard_core::PartAnswer;
use std::alloc::Global;
use std::hint::spin_loop;
use std::sync::{Mutex, MutexGuard, Wait};

/// The last seats go behind a lock, if the shard is one of the store's.
pub(crate) fn open_lock<N: BookName, P: PoolName, const I: u16>(
    alloc: Global,
    shards: u16,
    seats: &mut PoolSeats<P>,
    books: &mut ShardSeats<N>,
) -> Option<Mutex<Shard<N, P, I>>>
    requires books { books.old.items ≡ new_shards (min (I + 1) shards) }
    requires seats { (length seats.old.items ≡ min (I + 1) shards) × Each IsBare seats.old.items }
    ensures open { is_some result ≡ nat_lt I shards }
    ensures books { books.new.items ≡ new_shards (min I shards) }
    ensures seats { (length seats.new.items ≡ min I shards) × Each IsBare seats.new.items }
{
    if I >= shards {
        return None;
    }
    let Some(own) = seats.pop() else {
        unreachable!()
    };
    let Some(seat) = books.pop() else {
        unreachable!()
    };
    Some(Mutex::new(Shard::new(alloc, own, seat)))
}

// How often a thread tries a lock that another one holds before it may sleep. A part is done in less time than a thread
// takes to fall asleep and to wake.
const TRIES: u32 = 50;

// How long it pauses between two tries.
const PAUSES: u32 = 8;

fn pause() {
    for _ in 0..PAUSES {
        spin_loop();
    }
}

// The shard behind a lock that another thread held.
#[inline(never)]
fn locked_later<'a, R: Wait, N: BookName, P: PoolName, const I: u16>(
    rt: &R,
    lock: &'a Mutex<Shard<N, P, I>>,
) -> MutexGuard<'a, Shard<N, P, I>> {
    for _ in 0..TRIES {
        pause();
        if let Some(guard) = lock.try_lock() {
            return guard;
        }
    }
    lock.lock(rt)
}

// The shard behind the lock. All that is known of it is its type.
#[inline(always)]
fn locked<'a, R: Wait, N: BookName, P: PoolName, const I: u16>(
    rt: &R,
    lock: &'a Option<Mutex<Shard<N, P, I>>>,
) -> MutexGuard<'a, Shard<N, P, I>>
    requires { is_some lock.now ≡ true }
{
    let Some(lock) = lock else { unreachable!() };
    match lock.try_lock() {
        Some(guard) => guard,
        None => locked_later(rt, lock),
    }
}

/// Does a part in the shard behind a lock, as `Shard::run` does.
#[inline(always)]
pub(crate) fn run_behind<R: Wait, N: BookName, P: PoolName, T: Taker<P>, const I: u16>(
    rt: &R,
    lock: &Option<Mutex<Shard<N, P, I>>>,
    commons: &Commons<'_, N, P>,
    seat: &mut PoolSeat<P>,
    mine: &mut SessionSeat<N>,
    asked: &AskedPart<'_>,
    taker: &mut T,
    stored: &mut Segs,
) -> Result<PartAnswer, Memory>
    requires open { is_some lock.now ≡ true }
    requires here { shard_of N.sizes.shards asked.now.part.key.now ≡ I }
    requires session { asked.now.at.session ≡ mine.old.number }
    requires few { length asked.now.part.value.now ≤ value_limit }
    requires credits { 1 < seat.old.credits }
    requires spare { frags_limit ≤ stored.old.spare }
    requires taker { let op = operation_of asked.now.part in
        MayTake (is_taking op) (is_ranged op) (taking T.Taker taker.old) }
    ensures part { PartEnds P.sizes N.sizes.shards asked.now.at (operation_of asked.now.part) result
        (record { list = mine.old; seat = seat.old; stored = stored.old.items; taken = T.taken taker.old })
        (record { list = mine.new; seat = seat.new; stored = stored.new.items; taken = T.taken taker.new }) }
    ensures spare { stored.old.spare + length stored.old.items ≤ stored.new.spare + length stored.new.items }
    ensures taker { let range = is_ranged (operation_of asked.now.part) in
        KeepsTaker range (taking T.Taker taker.old) (taking T.Taker taker.new) }
{
    let mut shard = locked(rt, lock);
    shard.run(commons, seat, mine, asked, taker, stored)
}

/// Pins all values of the shard behind a lock, as `Shard::pin` does.
pub(crate) fn pin_behind<R: Wait, N: BookName, P: PoolName, const I: u16>(
    rt: &R,
    lock: &Option<Mutex<Shard<N, P, I>>>,
    pool: &Pool<P>,
    book: &Book<N>,
    seat: &mut PoolSeat<P>,
    mine: &mut SessionSeat<N>,
) -> Result<ShardImage<P>, Memory>
    requires open { is_some lock.now ≡ true }
    requires credits { buffers P.sizes + 4 ≤ seat.old.credits }
    ensures image { IfOk result (λ i. IsImage P.sizes I i.place i.pairs.items mine.old mine.new seat.old seat.new) }
    ensures memory { OnErr result ((seat.new ≡ seat.old) × (mine.new ≡ mine.old)) }
{
    let mut shard = locked(rt, lock);
    shard.pin(pool, book, seat, mine)
}
