ghost use Rattle.std.specs.Prelude.{◌≡◌, ◌+◌, ◌≤◌, [], length, vec_capacity};
ghost use Rattle.frag_value.specs.Values.{HasValue, unmarked_view};
ghost use Rattle.frag_value.specs.Pins.{pin_holds, pinning};

use crate::frag::{Frag, Value};
use crate::pinned::Pinned;
use pinned_pool::{Pool, PoolName, PoolSeat};

/// One more hold of each fragment's buffer, pinned and the taker's. It takes no memory: the list has room.
pub fn pin_value<N: PoolName>(
    pool: &Pool<N>,
    owner: &mut PoolSeat<N>,
    taker: &mut PoolSeat<N>,
    value: &Value<N>,
    room: Vec<Frag<N>>,
) -> Pinned<N>
    requires value { HasValue owner.old.holds value.now }
    requires credits { length value.now + 2 ≤ taker.old.credits }
    requires room { (room.items ≡ []) × (length value.now ≤ vec_capacity room) }
    ensures value { result ≡ value.now }
    ensures owner { unmarked_view owner.new ≡ unmarked_view owner.old }
    ensures taker { taker.new ≡ pinning (pin_holds owner.old.holds value.now) taker.old }
{
    let len = value.len();
    let mut frags = room;
    for i in 0..value.count() {
        let frag = value.frag(i);
        let hold = pool.pin(owner, taker, &frag.hold);
        frags.push_reserved(Frag {
            hold,
            len: frag.len,
        });
    }
    Pinned { frags, len }
}
