ghost use Rattle.std.specs.Prelude.{ℕ, ◌≤◌};
ghost use Rattle.pinned_pool.specs.Moves.{meant_count};
ghost use Rattle.frag_value.specs.Values.{uses};
ghost use Rattle.frag_value.specs.Pins.{pin_key, AreReturned};

use crate::frag::Frag;
use crate::pinned::Pinned;
use pinned_pool::{Pool, PoolName, PoolSeat, Unpinned};

// Unpins each fragment.
fn unpin_all<N: PoolName>(pool: &Pool<N>, seat: &mut PoolSeat<N>, value: &mut Pinned<N>) -> u64
    requires { (b : ℕ) → uses b value.old ≤ meant_count (pin_key b) seat.old.holds }
    ensures { AreReturned value.old result seat.old seat.new }
{
    let _ = value.count();
    let mut lasts = 0;
    while let Some(frag) = value.next_frag() {
        let Frag { hold, len: _ } = frag;
        match pool.unpin(seat, hold) {
            Unpinned::Last => lasts += 1,
            Unpinned::NotLast => {}
        }
    }
    lasts
}

/// Gives back the value's holds, each with its credit. The answer is how many of them were the last of their buffers.
pub fn release_pins<N: PoolName>(
    pool: &Pool<N>,
    seat: &mut PoolSeat<N>,
    mut value: Pinned<N>,
) -> u64
    requires { (b : ℕ) → uses b value ≤ meant_count (pin_key b) seat.old.holds }
    ensures { AreReturned value result seat.old seat.new }
{
    unpin_all(pool, seat, &mut value)
}
