//! What the shards come to, when they come out from behind their locks one by one.
ghost use Rattle.std.specs.Prelude.{◌≡◌, ◌+◌, ◌<◌, ◌≤◌, nat_lt, is_some, []};
ghost use Rattle.shard_core.specs.Stock.{AreParts, HasValuesLeft};
ghost use Rattle.shard_store.specs.Gathered.{AreTaken};
ghost use Rattle.flake_base.specs.Histories.{histories};

use crate::shard::Shard;
use flake_base::{Journal, Sequence};
use order_book::{BookName, ShardSeats};
use pinned_pool::{Pool, PoolName, PoolSeat};
use std::sync::Mutex;

/// Room for what the shards come to. No thread takes its lock: a seat may move to another thread, and can't be shared.
#[derive(Drop)]
pub(crate) struct Room<N: BookName> {
    pub(crate) journal: Journal,
    pub(crate) books: ShardSeats<N>,
    ghost empty: { (journal.items ≡ []) × (books.items ≡ []) },
    ghost enough: { (N.sizes.shards ≤ journal.spare) × (N.sizes.shards ≤ books.spare) },
}

/// The histories of all shards in the order of their numbers, the seat that has all their holds, and the seats that
/// know their deeds.
#[derive(Drop)]
pub struct Parts<N: BookName, P: PoolName> {
    pub journal: Journal,
    pub seat: PoolSeat<P>,
    pub books: ShardSeats<N>,
}

/// The parts of the first shard, which each store has.
pub(crate) fn first_lock<N: BookName, P: PoolName>(
    shards: u16,
    lock: Option<Mutex<Shard<N, P, 0>>>,
    room: Room<N>,
) -> Parts<N, P>
    requires open { (is_some lock ≡ nat_lt 0 shards) × (0 < shards) × (shards ≡ N.sizes.shards) }
    ensures { AreTaken P.sizes 1 shards result.books result.journal result.seat }
{
    let _ = shards;
    let Some(lock) = lock else { unreachable!() };
    let Shard {
        shard_map,
        seat: book,
        journal: history,
        apart: _,
    } = lock.into_inner();
    shard_map.is_shard_map();
    let Room {
        mut journal,
        mut books,
    } = room;
    let Ok(()) = journal.push(Sequence::from_vec(history)) else {
        unreachable!()
    };
    let Ok(()) = books.push(book) else {
        unreachable!()
    };
    Parts {
        journal,
        seat: shard_map.into_seat(),
        books,
    }
}

/// The shard's history goes last, if the shard is one of the store's, and its holds to the others'.
pub(crate) fn take_lock<N: BookName, P: PoolName, const I: u16>(
    pool: &Pool<P>,
    shards: u16,
    lock: Option<Mutex<Shard<N, P, I>>>,
    parts: &mut Parts<N, P>,
)
    requires open { is_some lock ≡ nat_lt I shards }
    requires parts { AreTaken P.sizes I shards parts.old.books parts.old.journal parts.old.seat }
    ensures { AreTaken P.sizes (I + 1) shards parts.new.books parts.new.journal parts.new.seat }
{
    let _ = shards;
    if let Some(lock) = lock {
        let Shard {
            shard_map,
            seat: book,
            journal: history,
            apart: _,
        } = lock.into_inner();
        shard_map.is_shard_map();
        pool.join(&mut parts.seat, shard_map.into_seat());
        parts.seat.is_seat();
        let Ok(()) = parts.journal.push(Sequence::from_vec(history)) else {
            unreachable!()
        };
        let Ok(()) = parts.books.push(book) else {
            unreachable!()
        };
    }
}

/// Does nothing, and tells a proof that no shard is left.
pub(crate) fn all_taken<N: BookName, P: PoolName>(shards: u16, parts: &Parts<N, P>)
    requires shards { (shards ≡ N.sizes.shards) × (shards ≤ 16) }
    requires parts { AreTaken P.sizes 16 shards parts.now.books parts.now.journal parts.now.seat }
    ensures parts { AreParts P.sizes N.sizes.shards parts.now.books.items (histories parts.now.journal.items)
        parts.now.seat }
    ensures values { HasValuesLeft P.sizes parts.now.books.items parts.now.seat }
{
    let _ = shards;
    let _ = parts;
}
