// Holds that are given back.
ghost use Rattle.std.specs.Prelude.{ℕ, ◌≤◌};
ghost use Rattle.pinned_pool.specs.Moves.{meant_count};
ghost use Rattle.frag_value.specs.Values.{uses};
ghost use Rattle.frag_value.specs.Pins.{all_frags, pin_key};
ghost use Rattle.pin_dump.specs.Dumps.{GivesHolds};

use frag_value::{PinnedPair, release_pins};
use pinned_pool::{Pool, PoolName, PoolSeat};

/// Gives back all values' holds, each with its credit.
pub(crate) fn give_back<N: PoolName>(
    pool: &Pool<N>,
    seat: &mut PoolSeat<N>,
    pairs: Vec<PinnedPair<N>>,
)
    requires { (b : ℕ) → uses b (all_frags pairs.items) ≤ meant_count (pin_key b) seat.old.holds }
    ensures { GivesHolds (all_frags pairs.items) seat.old seat.new }
{
    for pair in pairs {
        release_pins(pool, seat, pair.into_value());
    }
}
