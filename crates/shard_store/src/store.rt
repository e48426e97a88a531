//! The shards, each behind a lock of its own.
ghost use Rattle.std.specs.Prelude.{◌≡◌, ◌+◌, ◌<◌, ◌≤◌, nat_lt, min, is_some, [], length};
ghost use Rattle.std.specs.Prelude.{IfOk, IfErr, OnErr};
ghost use Rattle.view_sums.specs.Total.{Each};
ghost use Rattle.frag_value.specs.Fragments.{frags_limit};
ghost use Rattle.flake_base.specs.Limits.{value_limit};
ghost use Rattle.order_book.specs.Pages.{new_shards};
ghost use Rattle.shard_core.specs.Done.{is_taking, is_ranged};
ghost use Rattle.shard_core.specs.ShardMaps.{IsBare};
ghost use Rattle.shard_core.specs.Takers.{MayTake, KeepsTaker, taking};
ghost use Rattle.shard_part.specs.Parts.{operation_of};
ghost use Rattle.shard_core.specs.Parts.{PartEnds};
ghost use Rattle.shard_core.specs.Stock.{AreParts, HasValuesLeft};
ghost use Rattle.flake_base.specs.Histories.{histories};
ghost use Rattle.pin_core.specs.Buffers.{buffers};
ghost use Rattle.shard_store.specs.Images.{IsImage};

use crate::asked::{AskedPart, Commons};
use crate::image::ShardImage;
use crate::locks::{open_lock, pin_behind, run_behind};
use crate::parts::{Parts, Room, all_taken, first_lock, take_lock};
use crate::shard::Shard;
use flake_base::{Memory, Segs, Sequence};
use frag_value::Taker;
use order_book::{Book, BookName, SessionSeat, ShardSeats};
use pinned_pool::{Pool, PoolName, PoolSeat, PoolSeats};
use shard_core::PartAnswer;
use shard_part::shard_of;
use std::alloc::Global;
use std::sync::{Mutex, Wait};

// What an expression comes to by the lock of one of the store's shards.
macro_rules! by_lock {
    ($store:expr, $number:expr, $lock:ident => $done:expr) => {
        match $number {
            0 => { let $lock = &$store.shard0; $done }
            1 => { let $lock = &$store.shard1; $done }
            2 => { let $lock = &$store.shard2; $done }
            3 => { let $lock = &$store.shard3; $done }
            4 => { let $lock = &$store.shard4; $done }
            5 => { let $lock = &$store.shard5; $done }
            6 => { let $lock = &$store.shard6; $done }
            7 => { let $lock = &$store.shard7; $done }
            8 => { let $lock = &$store.shard8; $done }
            9 => { let $lock = &$store.shard9; $done }
            10 => { let $lock = &$store.shard10; $done }
            11 => { let $lock = &$store.shard11; $done }
            12 => { let $lock = &$store.shard12; $done }
            13 => { let $lock = &$store.shard13; $done }
            14 => { let $lock = &$store.shard14; $done }
            15 => { let $lock = &$store.shard15; $done }
            _ => unreachable!(),
        }
    };
}

/// The shards of a book over the buffers of a pool. The type behind each lock has the shard's number as a parameter,
/// since all that a lock tells is its type.
#[derive(Drop)]
pub struct Store<N: BookName, P: PoolName> {
    shards: u16,
    shard0: Option<Mutex<Shard<N, P, 0>>>,
    shard1: Option<Mutex<Shard<N, P, 1>>>,
    shard2: Option<Mutex<Shard<N, P, 2>>>,
    shard3: Option<Mutex<Shard<N, P, 3>>>,
    shard4: Option<Mutex<Shard<N, P, 4>>>,
    shard5: Option<Mutex<Shard<N, P, 5>>>,
    shard6: Option<Mutex<Shard<N, P, 6>>>,
    shard7: Option<Mutex<Shard<N, P, 7>>>,
    shard8: Option<Mutex<Shard<N, P, 8>>>,
    shard9: Option<Mutex<Shard<N, P, 9>>>,
    shard10: Option<Mutex<Shard<N, P, 10>>>,
    shard11: Option<Mutex<Shard<N, P, 11>>>,
    shard12: Option<Mutex<Shard<N, P, 12>>>,
    shard13: Option<Mutex<Shard<N, P, 13>>>,
    shard14: Option<Mutex<Shard<N, P, 14>>>,
    shard15: Option<Mutex<Shard<N, P, 15>>>,
    room: Mutex<Room<N>>,
    ghost sized: { (shards ≡ N.sizes.shards) × (0 < shards) × (shards ≤ 16) },
    ghost locks: { (is_some shard0 ≡ nat_lt 0 shards) × (is_some shard1 ≡ nat_lt 1 shards)
        × (is_some shard2 ≡ nat_lt 2 shards) × (is_some shard3 ≡ nat_lt 3 shards)
        × (is_some shard4 ≡ nat_lt 4 shards) × (is_some shard5 ≡ nat_lt 5 shards)
        × (is_some shard6 ≡ nat_lt 6 shards) × (is_some shard7 ≡ nat_lt 7 shards)
        × (is_some shard8 ≡ nat_lt 8 shards) × (is_some shard9 ≡ nat_lt 9 shards)
        × (is_some shard10 ≡ nat_lt 10 shards) × (is_some shard11 ≡ nat_lt 11 shards)
        × (is_some shard12 ≡ nat_lt 12 shards) × (is_some shard13 ≡ nat_lt 13 shards)
        × (is_some shard14 ≡ nat_lt 14 shards) × (is_some shard15 ≡ nat_lt 15 shards) },
}

impl<N: BookName, P: PoolName> Store<N, P> {
    /// Each shard gets a seat of the pool, which has one credit, and one of the book. After want of memory they come
    /// back.
    pub fn open(
        alloc: Global,
        seats: PoolSeats<P>,
        books: ShardSeats<N>,
    ) -> Result<Store<N, P>, (Memory, PoolSeats<P>, ShardSeats<N>)>
        requires shards { (0 < N.sizes.shards) × (N.sizes.shards ≤ 16) }
        requires books { books.items ≡ new_shards N.sizes.shards }
        requires seats { (length seats.items ≡ N.sizes.shards) × Each IsBare seats.items }
        ensures { IfErr result (λ e. (e.1 ≡ seats) × (e.2 ≡ books)) }
    {
        let shards = books.len();
        let Ok(journal) = Sequence::with_room(alloc, shards) else {
            return Err((Memory, seats, books));
        };
        let Ok(emptied) = ShardSeats::with_room(alloc, shards) else {
            return Err((Memory, seats, books));
        };
        let room = Room {
            journal,
            books: emptied,
        };
        Ok(Store::open_in(alloc, shards as u16, seats, books, room))
    }

    fn open_in(
        alloc: Global,
        shards: u16,
        mut seats: PoolSeats<P>,
        mut books: ShardSeats<N>,
        room: Room<N>,
    ) -> Store<N, P>
        requires shards { (shards ≡ N.sizes.shards) × (0 < shards) × (shards ≤ 16) }
        requires books { books.items ≡ new_shards (min 16 shards) }
        requires seats { (length seats.items ≡ min 16 shards) × Each IsBare seats.items }
    {
        let shard15 = open_lock(alloc, shards, &mut seats, &mut books);
        let shard14 = open_lock(alloc, shards, &mut seats, &mut books);
        let shard13 = open_lock(alloc, shards, &mut seats, &mut books);
        let shard12 = open_lock(alloc, shards, &mut seats, &mut books);
        let shard11 = open_lock(alloc, shards, &mut seats, &mut books);
        let shard10 = open_lock(alloc, shards, &mut seats, &mut books);
        let shard9 = open_lock(alloc, shards, &mut seats, &mut books);
        let shard8 = open_lock(alloc, shards, &mut seats, &mut books);
        let shard7 = open_lock(alloc, shards, &mut seats, &mut books);
        let shard6 = open_lock(alloc, shards, &mut seats, &mut books);
        let shard5 = open_lock(alloc, shards, &mut seats, &mut books);
        let shard4 = open_lock(alloc, shards, &mut seats, &mut books);
        let shard3 = open_lock(alloc, shards, &mut seats, &mut books);
        let shard2 = open_lock(alloc, shards, &mut seats, &mut books);
        let shard1 = open_lock(alloc, shards, &mut seats, &mut books);
        let shard0 = open_lock(alloc, shards, &mut seats, &mut books);
        Store {
            shards,
            shard0,
            shard1,
            shard2,
            shard3,
            shard4,
            shard5,
            shard6,
            shard7,
            shard8,
            shard9,
            shard10,
            shard11,
            shard12,
            shard13,
            shard14,
            shard15,
            room: Mutex::new(room),
        }
    }

    /// Does a part in the shard of its key, and enters it there and in the session's list. What it stores is claimed on
    /// the caller's seat, which has its holds and credits again behind the call.
    #[inline(always)]
    pub fn run_part<R: Wait, T: Taker<P>>(
        &self,
        rt: &R,
        commons: &Commons<'_, N, P>,
        seat: &mut PoolSeat<P>,
        mine: &mut SessionSeat<N>,
        asked: &AskedPart<'_>,
        taker: &mut T,
        stored: &mut Segs,
    ) -> Result<PartAnswer, Memory>
        requires session { asked.now.at.session ≡ mine.old.number }
        requires few { length asked.now.part.value.now ≤ value_limit }
        requires credits { 1 < seat.old.credits }
        requires spare { frags_limit ≤ stored.old.spare }
        requires taker { let op = operation_of asked.now.part in
            MayTake (is_taking op) (is_ranged op) (taking T.Taker taker.old) }
        ensures part { PartEnds P.sizes N.sizes.shards asked.now.at (operation_of asked.now.part) result
            (record { list = mine.old; seat = seat.old; stored = stored.old.items; taken = T.taken taker.old })
            (record { list = mine.new; seat = seat.new; stored = stored.new.items; taken = T.taken taker.new }) }
        ensures spare { stored.old.spare + length stored.old.items ≤ stored.new.spare + length stored.new.items }
        ensures taker { let range = is_ranged (operation_of asked.now.part) in
            KeepsTaker range (taking T.Taker taker.old) (taking T.Taker taker.new) }
    {
        let number = shard_of(asked.part.key, self.shards);
        by_lock!(self, number, lock => run_behind(rt, lock, commons, seat, mine, asked, taker, stored))
    }

    /// How many shards there are.
    pub fn shards(&self) -> u16
        ensures number { result ≡ N.sizes.shards }
        ensures few { result ≤ 16 }
    {
        self.shards
    }

    /// All values of a shard under pinned holds of the seat, at one point of the shard's history, which the session
    /// sees. After want of memory nothing has changed.
    pub fn pin_shard<R: Wait>(
        &self,
        rt: &R,
        pool: &Pool<P>,
        book: &Book<N>,
        shard: u16,
        seat: &mut PoolSeat<P>,
        mine: &mut SessionSeat<N>,
    ) -> Result<ShardImage<P>, Memory>
        requires shard { shard < N.sizes.shards }
        requires credits { buffers P.sizes + 4 ≤ seat.old.credits }
        ensures image { IfOk result (λ i. IsImage P.sizes shard i.place i.pairs.items
            mine.old mine.new seat.old seat.new) }
        ensures memory { OnErr result ((seat.new ≡ seat.old) × (mine.new ≡ mine.old)) }
    {
        let _ = self.shards;
        by_lock!(self, shard, lock => pin_behind(rt, lock, pool, book, seat, mine))
    }

    /// What the shards have come to: their histories, which are legal, and the seat that holds their final values, with
    /// their bytes, and nothing else.
    pub fn into_parts(self, pool: &Pool<P>) -> Parts<N, P>
        ensures parts { AreParts P.sizes N.sizes.shards result.books.items (histories result.journal.items)
            result.seat }
        ensures values { HasValuesLeft P.sizes result.books.items result.seat }
    {
        let Store {
            shards,
            shard0,
            shard1,
            shard2,
            shard3,
            shard4,
            shard5,
            shard6,
            shard7,
            shard8,
            shard9,
            shard10,
            shard11,
            shard12,
            shard13,
            shard14,
            shard15,
            room,
        } = self;
        let mut parts = first_lock(shards, shard0, room.into_inner());
        take_lock(pool, shards, shard1, &mut parts);
        take_lock(pool, shards, shard2, &mut parts);
        take_lock(pool, shards, shard3, &mut parts);
        take_lock(pool, shards, shard4, &mut parts);
        take_lock(pool, shards, shard5, &mut parts);
        take_lock(pool, shards, shard6, &mut parts);
        take_lock(pool, shards, shard7, &mut parts);
        take_lock(pool, shards, shard8, &mut parts);
        take_lock(pool, shards, shard9, &mut parts);
        take_lock(pool, shards, shard10, &mut parts);
        take_lock(pool, shards, shard11, &mut parts);
        take_lock(pool, shards, shard12, &mut parts);
        take_lock(pool, shards, shard13, &mut parts);
        take_lock(pool, shards, shard14, &mut parts);
        take_lock(pool, shards, shard15, &mut parts);
        all_taken(shards, &parts);
        parts
    }
}

fn shared<T: Sync>(_store: &T) {}

/// Threads may share a store: this is well typed.
pub fn is_shared<N: BookName + Send + Sync, P: PoolName + Send + Sync>(store: &Store<N, P>) {
    shared(store);
}
