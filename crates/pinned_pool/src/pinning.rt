//! Holds that come and go.
ghost use Rattle.std.specs.Prelude.{◌≡◌, ◌<◌, true};
ghost use Rattle.view_sums.specs.Total.{total};
ghost use Rattle.pin_core.specs.Holding.{at};
ghost use Rattle.pinned_pool.specs.Moves.{meant_count, unpin, sharing, taking, pinned_hold, front_of};
ghost use Rattle.pinned_pool.specs.Named.{is_last};

use crate::hold::Hold;
use crate::name::PoolName;
use crate::pool::Pool;
use crate::seat::PoolSeat;
use crate::unpinned::Unpinned;
use std::marker::Brand;

impl<N: PoolName> Pool<N> {
    /// Gives a hold back. `Last` says that no seat holds the buffer any more.
    pub fn unpin(&self, seat: &mut PoolSeat<N>, hold: Hold<N>) -> Unpinned
        requires { 0 < meant_count hold seat.old.holds }
        ensures seat { seat.new ≡ unpin (is_last result) hold seat.old }
        ensures last { result ≡ Unpinned.Last → total (at hold.buffer) seat.new.holds ≡ 0 }
    {
        if self.unpin_as::<Brand>(seat, hold) == 1 {
            Unpinned::Last
        } else {
            Unpinned::NotLast
        }
    }

    /// One more hold of the buffer, which is pinned and the taker's, for one of the taker's credits.
    ///
    /// A step changes one seat only. So the owner takes the step, with credits that are lent to it, and hands the hold
    /// on.
    pub fn pin(&self, owner: &mut PoolSeat<N>, taker: &mut PoolSeat<N>, hold: &Hold<N>) -> Hold<N>
        requires { (0 < meant_count hold.now owner.old.holds) × (2 < taker.old.credits) }
        ensures owner { owner.new ≡ sharing hold.now.buffer owner.old }
        ensures taker { taker.new ≡ taking (pinned_hold hold.now.buffer (front_of hold.now.buffer owner.old.holds))
            taker.old }
        ensures new { result ≡ record { buffer = hold.now.buffer; pinned = true } }
    {
        owner.is_seat();
        self.pass(taker, owner, (), 2);
        let new = self.add_pin(owner, hold);
        self.pass(owner, taker, &new, 1);
        new
    }
}
