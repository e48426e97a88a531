//! A value's fragments as segments.
ghost use Rattle.std.specs.Prelude.{◌≡◌, ◌≤◌, ◌+◌, ◌++◌, length};
ghost use Rattle.frag_value.specs.Fragments.{frags_limit};
ghost use Rattle.shard_core.specs.Kept.{segs_of};

use flake_base::{Seg, Segs};
use frag_value::Value;
use pinned_pool::{Pool, PoolName};

/// Puts the value's fragments at the end of a list.
pub(crate) fn show<P: PoolName>(pool: &Pool<P>, value: &Value<P>, stored: &mut Segs)
    requires { frags_limit ≤ stored.old.spare }
    ensures items { stored.new.items ≡ stored.old.items ++ segs_of P.sizes value.now }
    ensures spare { stored.old.spare + length stored.old.items ≤ stored.new.spare + length stored.new.items }
{
    value.is_value();
    for i in 0..value.count() {
        let frag = value.frag(i);
        let Ok(()) = stored.push(Seg {
            address: pool.address(frag.hold.buffer()),
            len: frag.len,
        }) else {
            unreachable!()
        };
    }
}
