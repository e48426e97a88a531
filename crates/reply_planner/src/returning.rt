//! Parcels that are given back.
ghost use Rattle.std.specs.Prelude.{◌≡◌, ◌+◌, ◌≤◌, [], length};
ghost use Rattle.pinned_pool.specs.Moves.{HasHolds};
ghost use Rattle.reply_planner.specs.Owned.{AreOwn};
ghost use Rattle.reply_planner.specs.Parcels.{Unpins, TakesBack};
ghost use Rattle.reply_planner.specs.Stages.{stage_size, merged};

use crate::parcel::Parcel;
use crate::stage::Stage;
use pinned_pool::{Hold, Pool, PoolName, PoolSeat, Unpinned};

/// Gives holds back. The answer is how many of them were the last of their buffers.
pub(crate) fn unpin_all<N: PoolName>(
    pool: &Pool<N>,
    seat: &mut PoolSeat<N>,
    holds: &mut Vec<Hold<N>>,
) -> u64
    requires { HasHolds holds.old.items seat.old.holds }
    ensures seat { Unpins holds.old.items result seat.old seat.new }
    ensures none { holds.new.items ≡ [] }
{
    let mut lasts = 0;
    while let Some(hold) = holds.pop() {
        match pool.unpin(seat, hold) {
            Unpinned::Last => lasts += 1,
            Unpinned::NotLast => {}
        }
    }
    lasts
}

/// Takes a parcel back: its staging buffers are free again, without a count step, and all its other holds are given
/// back. The answer is how many of these were the last of their buffers.
#[inline(always)]
pub fn give_back<N: PoolName>(
    parcel: Parcel<N>,
    pool: &Pool<N>,
    seat: &mut PoolSeat<N>,
    stage: &mut Stage<N>,
) -> u64
    requires room { length stage.old + length parcel.staged ≤ stage_size }
    requires own { AreOwn seat.old.holds stage.old }
    ensures stage { stage.new ≡ merged parcel.staged stage.old }
    ensures seat { TakesBack parcel result seat.old seat.new }
    ensures own { AreOwn seat.new.holds stage.new }
{
    let Parcel {
        seat: mut own,
        mut lists,
        call: _,
    } = parcel;
    let lasts = unpin_all(pool, &mut own, &mut lists.pins);
    pool.join(seat, own);
    stage.restore(lists);
    lasts
}
