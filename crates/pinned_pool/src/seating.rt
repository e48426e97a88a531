//! Seats that are split and joined.
ghost use Rattle.std.specs.Prelude.{◌≡◌, ◌<◌, map};
ghost use Rattle.pinned_pool.specs.Moves.{HasHolds, hold_key, split_old, split_new, joined_views};
ghost use Rattle.pinned_pool.specs.Views.{IsLoose, OneFront};

use crate::name::PoolName;
use crate::naming::NamesHolds;
use crate::pool::Pool;
use crate::seat::PoolSeat;
use std::marker::Brand;

impl<N: PoolName> Pool<N> {
    /// A new seat with these holds and credits, and no claims, looks or returns.
    pub fn split<K: NamesHolds>(
        &self,
        seat: &mut PoolSeat<N>,
        holds: K,
        credits: u64,
    ) -> PoolSeat<N>
        requires held { HasHolds (K.keys holds) seat.old.holds }
        requires credits { (0 < credits) × (credits < seat.old.credits) }
        ensures old { seat.new ≡ split_old (K.keys holds) credits seat.old }
        ensures new { result ≡ split_new (K.keys holds) credits seat.old }
        ensures exactly { map hold_key result.holds ≡ K.keys holds }
    {
        self.cut::<Brand, K>(seat, holds, credits)
    }

    /// Takes in all that the other seat has, and tells a proof what the rule says of the holds that the seat has then.
    pub fn join(&self, into: &mut PoolSeat<N>, from: PoolSeat<N>)
        ensures joined { into.new ≡ joined_views into.old from }
        ensures loose { IsLoose into.new }
        ensures fronts { OneFront into.new }
    {
        self.glue(into, from);
    }
}
