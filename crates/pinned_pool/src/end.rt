//! The end of a pool.
ghost use Rattle.std.specs.Prelude.{◌≡◌, ◌+◌, ◌<◌, ◌≤◌};
ghost use Rattle.std.specs.Slots.{slots_items, slots_len, IsFull};
ghost use Rattle.pinned_pool.specs.Ends.{nonzero_in, pool_end, LooksClaimed, AllEnded};
ghost use Rattle.pinned_pool.specs.Named.{ClaimsAreNearby};
ghost use Rattle.pinned_pool.specs.Views.{IsLoose};

use crate::name::PoolName;
use crate::pool::Pool;
use crate::seat::PoolSeat;
use crate::view::View;
use atomic_table::{Closed, Seat};
use pin_core::Held;
use std::alloc::Global;
use std::marker::Model;
use std::snapshot::Snapshot;

/// What is left of a pool. Contracts see what its last seat had, and how many buffers of each class were held.
#[derive(Drop)]
pub struct PoolEnd {
    held: Held,
    last: Snapshot<Seat<(), View>>,
}

impl Model for PoolEnd {
    ghost use Rattle.pinned_pool.specs.Ends.{End};

    ghost Value = { End };

    ghost view = { λ e. record { seat = e.last.value.me.0; small = e.held.small; large = e.held.large } };
}

impl PoolEnd {
    /// How many buffers of each class have a hold.
    pub fn held(&self) -> Held
        ensures { (result.small ≡ self.now.small) × (result.large ≡ self.now.large) }
    {
        self.held
    }
}

// How many of these words are not 0.
fn count_held(closed: &Closed<(), Global>, first: u32, count: u32) -> u32
    requires { (first + count ≤ slots_len closed.now.words) × IsFull closed.now.words }
    ensures { result ≡ nonzero_in (slots_items closed.now.words) first count }
{
    let mut held = 0;
    for k in 0..count {
        if closed.word(first as usize + k as usize) != 0 {
            held += 1;
        }
    }
    held
}

impl<N: PoolName> Pool<N> {
    /// Ends the pool. With all credits in one seat no other seat holds a buffer.
    pub fn close(self, seat: PoolSeat<N>) -> PoolEnd
        requires { seat.credits ≡ N.sizes.credits }
        ensures end { result ≡ pool_end N.sizes seat }
        ensures loose { IsLoose seat }
        ensures looks { LooksClaimed seat }
        ensures lasts { AllEnded seat }
        ensures claimed { ClaimsAreNearby N.sizes seat }
    {
        let Pool {
            table,
            small,
            large,
            name: _,
        } = self;
        let PoolSeat { seat, name: _ } = seat;
        let last = Snapshot::of(&seat);
        let closed = table.close_with(seat);
        let held = Held {
            small: count_held(&closed, 0, small),
            large: count_held(&closed, small, large),
        };
        closed.free();
        PoolEnd { held, last }
    }
}
