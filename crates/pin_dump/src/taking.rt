// The shards, one after another.
ghost use Rattle.std.specs.Prelude.{◌≡◌, ◌+◌, ◌*◌, ◌≤◌, [], IfOk, OnOk};
ghost use Rattle.pin_core.specs.Buffers.{buffers};
ghost use Rattle.dump_model.specs.Dump.{pairs_text};
ghost use Rattle.pin_dump.specs.Dumps.{TookDump, HasTakenHolds, HoldsFor, KeepsDeeds};
ghost use Rattle.frag_value.specs.Pins.{IsPinned, all_frags, pairs_shown};

use crate::giving::give_back;
use flake_base::Memory;
use frag_value::PinnedPair;
use order_book::{Book, BookName, SessionSeat};
use pinned_pool::{Pool, PoolName, PoolSeat};
use shard_store::{ShardImage, Store};
use std::sync::Wait;

/// Pins the values of all shards, and shows the session their lists. After want of memory the pairs are those whose
/// holds the seat has.
pub(crate) fn take_all<R: Wait, N: BookName, P: PoolName>(
    rt: &R,
    pool: &Pool<P>,
    book: &Book<N>,
    store: &Store<N, P>,
    seat: &mut PoolSeat<P>,
    mine: &mut SessionSeat<N>,
    pairs: &mut Vec<PinnedPair<P>>,
    points: &mut Vec<u64>,
) -> Result<(), Memory>
    requires holds { seat.old.holds ≡ [] }
    requires credits { N.sizes.shards * buffers P.sizes + 4 ≤ seat.old.credits }
    requires none { (pairs.old.items ≡ []) × (points.old.items ≡ []) }
    ensures taken { OnOk result (TookDump N.sizes.shards mine.old mine.new points.new.items
        (pairs_text (pairs_shown seat.new.holds pairs.new.items))) }
    ensures pinned { OnOk result (IsPinned seat.new.holds (all_frags pairs.new.items)) }
    ensures unspent { OnOk result ((seat.new.returns ≡ seat.old.returns) × (seat.new.lasts ≡ seat.old.lasts)) }
    ensures held { HoldsFor seat.new.holds (all_frags pairs.new.items) }
    ensures seat { HasTakenHolds seat.old seat.new }
    ensures deeds { KeepsDeeds mine.old mine.new }
{
    let shards = store.shards();
    points.reserve(shards as usize)?;
    for shard in 0..shards {
        let image = store.pin_shard(rt, pool, book, shard, seat, mine)?;
        let ShardImage {
            place,
            pairs: mut more,
        } = image;
        if pairs.append(&mut more).is_err() {
            give_back(pool, seat, more);
            return Err(Memory);
        }
        points.push_reserved(place);
    }
    Ok(())
}
