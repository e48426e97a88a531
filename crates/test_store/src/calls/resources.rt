//! A store over a pool and a book of its own, and the pass of one session.
ghost use Rattle.std.specs.Prelude.{◌≡◌, ◌+◌, ◌<◌, ◌≤◌};

use command_exec::Pass;
use flake_base::{Journal, Memory};
use order_book::{Book, BookBlank, BookName};
use pinned_pool::{Held, Pool, PoolBlank, PoolName};
use reply_planner::STAGE_SIZE;
use shard_store::{Parts, Store, open_seats};
use std::alloc::Global;

/// What one session needs. Its pass has all credits but those of the shards.
#[derive(Drop)]
pub struct RunResources<N: BookName, P: PoolName> {
    pub pool: Pool<P>,
    pub book: Book<N>,
    pub store: Store<N, P>,
    pub pass: Pass<N, P>,
    ghost all: { pass.seat.credits + N.sizes.shards ≡ P.sizes.credits },
    ghost rich: { 8192 ≤ pass.seat.credits },
}

/// Opens all. The stage has the first 128 small buffers.
pub fn open_resources<N: BookName, P: PoolName>(
    alloc: Global,
    pool: PoolBlank,
    book: BookBlank,
    threshold: u32,
) -> Result<RunResources<N, P>, Memory>
    requires pool { (pool.table ≡ P.table) × (pool.sizes ≡ P.sizes) }
    requires book { (book.table ≡ N.table) × (book.sizes ≡ N.sizes) }
    requires shards { (0 < N.sizes.shards) × (N.sizes.shards ≤ 16) }
    requires credits { 8192 + N.sizes.shards ≤ P.sizes.credits }
    requires threshold { (0 < threshold) × (threshold ≤ 512) }
{
    let (pool, mut seat) = pool.name::<P>();
    let (book, books, mut sessions) = book.name::<N>();
    let Some(mine) = sessions.pop() else {
        return Err(Memory);
    };
    let shard_maps = open_seats(alloc, &pool, &mut seat, books.len())?;
    let Ok(pass) = Pass::open(alloc, &pool, seat, mine, threshold) else {
        return Err(Memory);
    };
    let Ok(store) = Store::open(alloc, shard_maps, books) else {
        return Err(Memory);
    };
    Ok(RunResources {
        pool,
        book,
        store,
        pass,
    })
}

/// The shards' histories, and how many buffers the store holds; nothing where a staging buffer isn't free.
pub fn close<N: BookName, P: PoolName>(
    pool: Pool<P>,
    store: Store<N, P>,
    pass: Pass<N, P>,
) -> Option<(Journal, Held)>
    requires { pass.seat.credits + N.sizes.shards ≡ P.sizes.credits }
{
    if pass.free() as usize != STAGE_SIZE {
        return None;
    }
    let (mut seat, _) = pass.close(&pool);
    let Parts {
        journal,
        seat: own,
        books: _,
    } = store.into_parts(&pool);
    pool.join(&mut seat, own);
    Some((journal, pool.close(seat).held()))
}
