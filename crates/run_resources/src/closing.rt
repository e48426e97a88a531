// The end of a run.
ghost use Rattle.std.specs.Prelude.{◌≡◌, ℕ, ◌+◌, List, length};
ghost use Rattle.shard_core.specs.Stock.{AreParts};
ghost use Rattle.serve_model.specs.Handed.{OneRun};
ghost use Rattle.flake_base.specs.Histories.{histories};
ghost use Rattle.run_resources.specs.Closed.{WasClosed};
ghost use Rattle.run_resources.specs.Together.{AreRuns, HaveShown};

use dump_model::laws::dump_of_seen;
use flake_base::Journal;
use order_book::{Book, BookName, SessionSeats};
use pinned_pool::{Pool, PoolEnd, PoolName, PoolSeat};
use serve_model::laws::{all_served, ran};
use shard_store::Parts;

/// What is left of a run.
#[derive(Drop)]
pub struct Closed {
    pub journal: Journal,
    pub end: PoolEnd,
}

/// The book and the pool are closed. `main` has what the opening kept of the pool and the seats of all sessions, and
/// `lists` their seats of the book.
pub fn close_all<N: BookName, P: PoolName>(
    pool: Pool<P>,
    book: Book<N>,
    parts: Parts<N, P>,
    main: PoolSeat<P>,
    lists: SessionSeats<N>,
) -> Closed
    requires lists { length lists.items ≡ N.sizes.sessions }
    requires parts { AreParts P.sizes N.sizes.shards parts.books.items (histories parts.journal.items) parts.seat }
    requires credits { main.credits + parts.seat.credits ≡ P.sizes.credits }
    ensures closed { WasClosed N.sizes P.sizes lists.items main (histories result.journal.items) result.end }
    ensures shown { (threshold : ℕ) (each : List OneRun)
        → AreRuns P.sizes threshold N.sizes.shards each lists.items main
        → HaveShown P.sizes threshold each (histories result.journal.items) result.end }
    ensures shards { length result.journal.items ≡ N.sizes.shards }
{
    let Parts {
        journal,
        seat: store,
        books,
    } = parts;
    book.close(books, lists);
    let mut last = main;
    pool.join(&mut last, store);
    let end = pool.close(last);
    all_served();
    ran();
    dump_of_seen();
    Closed { journal, end }
}
