//! Holds that go from one seat to another.
ghost use Rattle.std.specs.Prelude.{◌≡◌, ◌<◌, ◌-◌};
ghost use Rattle.pinned_pool.specs.Moves.{HasHolds, holds_for, split_old, split_new, joined_views, losing, gaining};

use crate::name::PoolName;
use crate::naming::NamesHolds;
use crate::pool::Pool;
use crate::seat::PoolSeat;

impl<N: PoolName> Pool<N> {
    // These holds and so many credits go to the other seat, by one split and one join.
    pub(crate) fn pass<K: NamesHolds>(
        &self,
        from: &mut PoolSeat<N>,
        into: &mut PoolSeat<N>,
        holds: K,
        credits: u64,
    )
        requires held { HasHolds (K.keys holds) from.old.holds }
        requires credits { (0 < credits) × (credits < from.old.credits) }
        ensures from { from.new ≡ split_old (K.keys holds) credits from.old }
        ensures into { into.new ≡ joined_views into.old (split_new (K.keys holds) credits from.old) }
    {
        let moved = self.split(from, holds, credits);
        self.join(into, moved);
    }

    /// Hands holds over to another seat. The seat that has them pays: a split needs a credit on each side, which the
    /// other seat gives back.
    pub fn lend<K: NamesHolds>(&self, from: &mut PoolSeat<N>, into: &mut PoolSeat<N>, holds: K)
        requires held { HasHolds (K.keys holds) from.old.holds }
        requires credits { 1 < from.old.credits }
        ensures from { from.new ≡ losing (K.keys holds) from.old }
        ensures into { into.new ≡ gaining (holds_for (K.keys holds) from.old.holds) into.old }
    {
        into.is_seat();
        self.pass(from, into, holds, 1);
        self.pass(into, from, (), 1);
    }

    /// The same, where the seat that gets the holds pays.
    pub fn fetch<K: NamesHolds>(&self, from: &mut PoolSeat<N>, into: &mut PoolSeat<N>, holds: K)
        requires held { HasHolds (K.keys holds) from.old.holds }
        requires credits { 1 < into.old.credits }
        ensures from { from.new ≡ losing (K.keys holds) from.old }
        ensures into { into.new ≡ gaining (holds_for (K.keys holds) from.old.holds) into.old }
    {
        from.is_seat();
        self.pass(into, from, (), 1);
        self.pass(from, into, holds, 1);
    }
}
