// What two seats of one pool can't both have.
ghost use Rattle.std.specs.Prelude.{◌≡◌, ◌<◌};
ghost use Rattle.view_sums.specs.Total.{total, Each};
ghost use Rattle.pin_core.specs.Holding.{loose_at};
ghost use Rattle.reply_planner.specs.Owned.{AreOwn};
ghost use Rattle.reply_planner.specs.Stages.{IsReordered};

use crate::stage::Stage;
use pinned_pool::{Pool, PoolName, PoolSeat};

impl<N: PoolName> Stage<N> {
    /// Changes nothing but the order of the seat's holds, and tells a proof that the other seat has no hold of its own
    /// of a staging buffer: it is lent these, and no seat has two such holds of one buffer.
    pub fn compare(&self, pool: &Pool<N>, seat: &mut PoolSeat<N>, other: &mut PoolSeat<N>)
        requires own { AreOwn seat.old.holds self.now }
        requires credits { 1 < seat.old.credits }
        ensures seat { IsReordered seat.old seat.new }
        ensures other { other.new ≡ other.old }
        ensures apart { Each (λ b. total (loose_at b) other.old.holds ≡ 0) self.now }
    {
        let holds = self.free.as_slice();
        pool.lend(seat, other, holds);
        other.is_seat();
        pool.fetch(other, seat, holds);
    }
}
