//! A plan becomes a parcel, or is given up.
ghost use Rattle.std.specs.Prelude.{◌≡◌, ◌+◌, ◌<◌, ◌≤◌, ◌++◌, length, drop, None};
ghost use Rattle.reply_layout.specs.Gathered.{text_of_pieces};
ghost use Rattle.reply_planner.specs.Owned.{AreOwn};
ghost use Rattle.reply_planner.specs.Stages.{stage_size, merged};
ghost use Rattle.reply_planner.specs.Laid.{pieces_in};
ghost use Rattle.reply_planner.specs.Sealed.{used_of, IsSealed, Keeps, Cancels};

use crate::laying::lay_run;
use crate::packing::pack;
use crate::parcel::Parcel;
use crate::plan::Plan;
use crate::returning::unpin_all;
use crate::stage::Stage;
use pinned_pool::{PoolName, PoolSeat};

impl<'a, N: PoolName> Plan<'a, N> {
    /// The reply as a parcel, with one credit, the plan's holds, and the staging buffers that it uses. All else of the
    /// plan goes back to the seat and to the stage.
    pub fn seal(self, seat: &mut PoolSeat<N>, stage: &mut Stage<N>, call: u32) -> Parcel<N>
        requires done { self.begun ≡ None }
        requires some { 0 < length (text_of_pieces (pieces_in self.taken)) }
        requires room { length stage.old + length self.base.stage ≤ stage_size }
        requires own { AreOwn seat.old.holds (stage.old ++ self.base.stage) }
        ensures parcel { IsSealed N.sizes self.entry call result }
        ensures stage { stage.new ≡ merged (drop (used_of self.entry) self.entry.base.stage) stage.old }
        ensures seat { Keeps self.entry result.staged seat.old seat.new }
        ensures own { AreOwn seat.new.holds stage.new }
    {
        let Plan {
            pool,
            seat: own,
            mut lists,
            need,
            threshold: _,
            run,
            paid,
            history: _,
        } = self;
        let parts = &mut *lists;
        let end = parts.text.len();
        lay_run(pool, &mut parts.segments, &parts.staged, run, end);
        let credits = u64::from(need.descriptors) + 2 - u64::from(paid);
        pack(pool, seat, stage, own, credits, lists, call)
    }

    /// Gives back all that the plan holds and was lent.
    pub fn cancel(self, seat: &mut PoolSeat<N>, stage: &mut Stage<N>)
        requires room { length stage.old + length self.base.stage ≤ stage_size }
        requires own { AreOwn seat.old.holds (stage.old ++ self.base.stage) }
        ensures stage { stage.new ≡ merged self.entry.base.stage stage.old }
        ensures seat { Cancels self.entry seat.old seat.new }
        ensures own { AreOwn seat.new.holds stage.new }
    {
        let Plan {
            pool,
            seat: mut own,
            mut lists,
            need: _,
            threshold: _,
            run: _,
            paid: _,
            history: _,
        } = self;
        unpin_all(pool, &mut own, &mut lists.pins);
        pool.join(seat, own);
        stage.restore(lists);
    }
}
