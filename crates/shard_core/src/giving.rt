//! A value that a key no longer has.
ghost use Rattle.std.specs.Prelude.{◌≡◌, ◌++◌, true, false};
ghost use Rattle.std.specs.Option.{option_map};
ghost use Rattle.pinned_pool.specs.Moves.{without_keys};
ghost use Rattle.frag_value.specs.Taken.{entire};
ghost use Rattle.frag_value.specs.Values.{HasValue, keys_of, value_bytes};
ghost use Rattle.shard_core.specs.Kept.{frags_of, value_addresses, KeepsIdle};
ghost use Rattle.shard_core.specs.Pieces.{pieces_at};
ghost use Rattle.shard_core.specs.Answers.{answer_shown, old_answer};
ghost use Rattle.shard_core.specs.Takers.{MayTake, KeepsTaker, taking};

use crate::answer::PartAnswer;
use frag_value::{Taker, Value, hand_over, release};
use pinned_pool::{Pool, PoolName, PoolSeat};

/// The old value goes to the taker with its holds, if it was asked for; else they are given back.
pub(crate) fn give_up<P: PoolName, T: Taker<P>>(
    pool: &Pool<P>,
    own: &mut PoolSeat<P>,
    old: Option<Value<P>>,
    asks: bool,
    taker: &mut T,
) -> PartAnswer
    requires value { HasValue own.old.holds (frags_of old) }
    requires taker { MayTake asks false (taking T.Taker taker.old) }
    ensures holds { own.new.holds ≡ without_keys (keys_of (frags_of old)) own.old.holds }
    ensures idle { KeepsIdle own.old own.new }
    ensures says { result ≡ answer_shown (old_answer asks (option_map (value_bytes own.old.holds) old)) }
    ensures taken { let answer = old_answer asks (option_map (value_bytes own.old.holds) old) in
        T.taken taker.new ≡ T.taken taker.old ++ pieces_at entire true answer (value_addresses P.sizes (frags_of old))
        0 }
    ensures taker { KeepsTaker false (taking T.Taker taker.old) (taking T.Taker taker.new) }
{
    match old {
        Some(old) => {
            old.is_value();
            if asks {
                hand_over(pool, own, old, taker);
                PartAnswer::Bulk
            } else {
                release(pool, own, old);
                PartAnswer::Done
            }
        }
        None => {
            if asks {
                PartAnswer::Null
            } else {
                PartAnswer::Done
            }
        }
    }
}
