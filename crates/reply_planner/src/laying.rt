//! Segments, as they are laid out.
ghost use Rattle.std.specs.Prelude.{◌≡◌, ◌+◌, ◌-◌, ◌*◌, ◌/◌, ◌≤◌, ◌++◌, length, vec_capacity};
ghost use Rattle.reply_layout.specs.Layout.{cut};
ghost use Rattle.reply_planner.specs.Owned.{key_buffers};
ghost use Rattle.reply_planner.specs.Places.{buffer_addresses};

use flake_base::Seg;
use pinned_pool::{Hold, Pool, PoolName};

/// Lays out the copied bytes from one place on and before another, in the staging buffers, a segment for each that they
/// touch.
pub(crate) fn lay_run<N: PoolName>(
    pool: &Pool<N>,
    segments: &mut Vec<Seg>,
    staged: &[Hold<N>],
    from: usize,
    to: usize,
)
    requires order { from ≤ to }
    requires staged { to ≤ 512 * length staged.now }
    requires room { length segments.old.items + (to + 511) / 512 ≤ vec_capacity segments.old + from / 512 }
    ensures items { segments.new.items ≡ segments.old.items
        ++ cut (buffer_addresses N.sizes (key_buffers staged.now)) (to - from) from (to - from) }
    ensures count { length segments.new.items + from / 512 ≤ length segments.old.items + (to + 511) / 512 }
    ensures capacity { vec_capacity segments.new ≡ vec_capacity segments.old }
{
    let mut at = from;
    while at < to {
        let size = (to - at).min(512 - at % 512);
        let address = pool.address(staged[at / 512].buffer()) + (at % 512) as u64;
        segments.push_reserved(Seg {
            address,
            len: size as u32,
        });
        at += size;
    }
}
