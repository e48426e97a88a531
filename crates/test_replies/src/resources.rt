//! A store over a pool and a book of its own, one session, and its device.
ghost use Rattle.std.specs.Prelude.{◌≡◌, ◌+◌, ◌<◌, ◌≤◌};

use command_exec::{Pass, Shop};
use device_model::Device;
use flake_base::Memory;
use order_book::{Book, BookBlank, BookName};
use pinned_pool::{Held, Pool, PoolBlank, PoolName};
use reply_planner::Parcel;
use session_pass::{Finish, Session};
use shard_store::{Parts, Store, open_seats};
use std::alloc::Global;
use tx_descriptor::Framed;
use tx_ring::ring;

/// What one session needs. Its seat has all credits but those of the shards.
#[derive(Drop)]
pub struct RunResources<N: BookName, P: PoolName + Send>
where
    Parcel<P>: Framed,
{
    pub pool: Pool<P>,
    pub book: Book<N>,
    pub store: Store<N, P>,
    pub session: Session<N, P>,
    pub device: Device<P>,
    ghost all: { session.opened.credits + N.sizes.shards ≡ P.sizes.credits },
}

/// Opens all, over a ring of 1,160 descriptors. The stage has the first 128 small buffers.
pub fn open_resources<N: BookName, P: PoolName + Send>(
    alloc: Global,
    pool: PoolBlank,
    book: BookBlank,
    threshold: u32,
) -> Result<RunResources<N, P>, Memory>
    requires pool { (pool.table ≡ P.table) × (pool.sizes ≡ P.sizes) }
    requires book { (book.table ≡ N.table) × (book.sizes ≡ N.sizes) }
    requires shards { (0 < N.sizes.shards) × (N.sizes.shards ≤ 16) }
    requires credits { 8192 + N.sizes.shards ≤ P.sizes.credits }
    requires threshold { (0 < threshold) × (threshold ≤ 512) }
{
    let (pool, mut seat) = pool.name::<P>();
    let (book, books, mut sessions) = book.name::<N>();
    let Some(mine) = sessions.pop() else {
        return Err(Memory);
    };
    let number = mine.session();
    let shard_maps = open_seats(alloc, &pool, &mut seat, books.len())?;
    let Ok(pass) = Pass::open(alloc, &pool, seat, mine, threshold) else {
        return Err(Memory);
    };
    let Ok(store) = Store::open(alloc, shard_maps, books) else {
        return Err(Memory);
    };
    let Ok((driver, end)) = ring::<Parcel<P>>(alloc, 1160) else {
        return Err(Memory);
    };
    let session = Session::open(alloc, number, pass, driver);
    let device = Device::open(end);
    Ok(RunResources {
        pool,
        book,
        store,
        session,
        device,
    })
}

/// How many buffers the store holds; nothing where a reply isn't sent.
pub fn close<N: BookName, P: PoolName + Send>(
    pool: Pool<P>,
    book: Book<N>,
    store: Store<N, P>,
    session: Session<N, P>,
) -> Option<Held>
    requires { session.opened.credits + N.sizes.shards ≡ P.sizes.credits }
{
    let shop = Shop {
        pool: &pool,
        book: &book,
        store: &store,
    };
    match session.finish(&shop) {
        Finish::Done {
            mut seat,
            mine: _,
            closed: _,
        } => {
            let Parts {
                journal: _,
                seat: own,
                books: _,
            } = store.into_parts(&pool);
            pool.join(&mut seat, own);
            Some(pool.close(seat).held())
        }
        Finish::NotYet(_) => None,
    }
}
