// All that a run needs before it reads.
ghost use Rattle.std.specs.Prelude.{◌≡◌, ◌+◌, ◌<◌, ◌≤◌, All, map, IfOk};
ghost use Rattle.std.specs.List.{range_with_len};
ghost use Rattle.order_book.specs.Pages.{new_shards};
ghost use Rattle.reply_planner.specs.Stages.{StagesAreApart};
ghost use Rattle.serve_model.specs.Seats.{IsSpare};
ghost use Rattle.tx_ring.specs.Shown.{ring_size};
ghost use Rattle.run_resources.specs.Opened.{HasRunSizes, IsPool, IsBook, IsSessionSlot, dump_credits};

use crate::passing::{Passed, open_passes};
use crate::sizes::RunSizes;
use crate::slot::{SessionSlot, open_session_slots};
use crate::spread::ClaimSpread;
use flake_base::Memory;
use order_book::{Book, BookBlank, BookName, ShardSeats};
use pinned_pool::{Pool, PoolBlank, PoolName, PoolSeat};
use reply_planner::Parcel;
use shard_store::{Store, open_seats};
use std::alloc::Global;
use tx_descriptor::Framed;

/// A pool, a book, and what stands on them.
#[derive(Drop)]
pub struct RunResources<N: BookName, P: PoolName + Send>
where
    Parcel<P>: Framed,
{
    pub pool: Pool<P>,
    pub book: Book<N>,
    pub store: Store<N, P>,
    /// What the opening keeps of the pool.
    pub main: PoolSeat<P>,
    /// In the order of their sessions.
    pub slots: Vec<SessionSlot<N, P>>,
}

// A store whose shards have a credit each.
fn open_store<N: BookName, P: PoolName>(
    alloc: Global,
    pool: &Pool<P>,
    main: &mut PoolSeat<P>,
    shards: u16,
    books: ShardSeats<N>,
) -> Result<Store<N, P>, Memory>
    requires shards { (shards ≡ N.sizes.shards) × (0 < shards) × (shards ≤ 16) }
    requires books { books.items ≡ new_shards N.sizes.shards }
    requires main { IsSpare main.old }
    requires credits { shards < main.old.credits }
    ensures main { IsSpare main.new }
    ensures credits { IfOk result (λ _. main.new.credits + shards ≡ main.old.credits) }
{
    let Ok(seats) = open_seats(alloc, pool, main, usize::from(shards)) else {
        return Err(Memory);
    };
    match Store::open(alloc, seats, books) {
        Ok(store) => Ok(store),
        Err((memory, _, _)) => Err(memory),
    }
}

/// Opens all over a new pool and a new book: the sessions' passes first, while nobody else has claimed a buffer. What
/// the sessions claim begins where the spread says.
pub fn open_resources<N: BookName, P: PoolName + Send>(
    alloc: Global,
    sizes: &RunSizes,
    count: usize,
    spread: ClaimSpread,
    pool: PoolBlank,
    book: BookBlank,
) -> Result<RunResources<N, P>, Memory>
    requires sized { HasRunSizes count sizes.now }
    requires pool { (P.table ≡ pool.table) × (P.sizes ≡ pool.sizes) × IsPool count sizes.now P.sizes }
    requires book { (N.table ≡ book.table) × (N.sizes ≡ book.sizes) × IsBook count sizes.now N.sizes }
    ensures main { IfOk result (λ h. IsSpare h.main × (h.main.credits ≡ 1 + dump_credits sizes.now)) }
    ensures slots { IfOk result (λ h. All (λ d. IsSessionSlot P.sizes d.session d.device.end d.device.failed)
        h.slots.items) }
    ensures numbers { IfOk result
        (λ h. map (λ d. d.session.pass.list.number) h.slots.items ≡ range_with_len 0 count) }
    ensures apart { IfOk result (λ h. StagesAreApart (map (λ d. d.session.pass.stage) h.slots.items)) }
    ensures ring { IfOk result (λ h. All (λ d. ring_size d.session.ring ≡ sizes.now.ring) h.slots.items) }
    ensures threshold { IfOk result
        (λ h. All (λ d. d.session.pass.threshold ≡ sizes.now.threshold) h.slots.items) }
{
    let passes = Vec::with_capacity(alloc, count)?;
    let slots = Vec::with_capacity(alloc, count)?;
    let (pool, main) = pool.name::<P>();
    let (book, shard_seats, lists) = book.name::<N>();
    let Passed {
        pool,
        mut main,
        passes,
    } = open_passes(alloc, pool, main, lists, sizes.threshold, spread, passes)?;
    let store = open_store(alloc, &pool, &mut main, sizes.shards, shard_seats)?;
    let slots = open_session_slots(alloc, sizes.ring, passes, slots)?;
    Ok(RunResources {
        pool,
        book,
        store,
        main,
        slots,
    })
}
