//! Parts that change nothing.
ghost use Rattle.std.specs.Prelude.{◌≡◌, ◌++◌, length, is_some, true, false};
ghost use Rattle.std.specs.FinMap as finite;
ghost use Rattle.indexmap.specs.IndexMap.{index_of_by};
ghost use Rattle.flake_model.specs.Range.{first_place, range_of};
ghost use Rattle.flake_model.specs.Store.{Store, value as answered, found as answer_found, bytes_at};
ghost use Rattle.flake_model.specs.Deed.{Places, places_at};
ghost use Rattle.frag_value.specs.Taken.{entire, ranged};
ghost use Rattle.shard_core.specs.Keys.{is_key};
ghost use Rattle.shard_core.specs.Kept.{IsKept, Agrees, StillAgrees};
ghost use Rattle.shard_core.specs.Pieces.{pieces_at};
ghost use Rattle.shard_core.specs.Answers.{answer_shown};
ghost use Rattle.shard_core.specs.Takers.{MayTake, KeepsTaker, taking};

use crate::answer::PartAnswer;
use crate::kept::{Kept, value_in};
use frag_value::{Taker, hand, hand_range};
use pinned_pool::{Pool, PoolName};
use range_pick::{Span, span};

/// The value of a key, which was looked up, goes to the taker. Its holds stay.
#[inline(always)]
pub(crate) fn get<P: PoolName, T: Taker<P>>(
    pool: &Pool<P>,
    kept: &mut Kept<P>,
    key: &[u8],
    found: Option<usize>,
    taker: &mut T,
) -> PartAnswer
    requires found { index_of_by (is_key key.now) kept.old.values ≡ found }
    requires kept { IsKept P.sizes kept.old.values.entries kept.old.own }
    requires taker { MayTake true false (taking T.Taker taker.old) }
    ensures kept { IsKept P.sizes kept.new.values.entries kept.new.own }
    ensures agrees { let hs = kept.old.own.holds in let now = kept.new.own.holds in
        StillAgrees P.sizes kept.old.values.entries hs kept.new.values.entries now }
    ensures says { (s : Store) (p : Places) → Agrees P.sizes kept.old.values.entries kept.old.own.holds s p
        → result ≡ answer_shown (answer_found (finite.get s key.now)) }
    ensures taken { (s : Store) (p : Places) → Agrees P.sizes kept.old.values.entries kept.old.own.holds s p
        → T.taken taker.new ≡ T.taken taker.old
        ++ pieces_at entire false (answer_found (finite.get s key.now)) (places_at p key.now) 0 }
    ensures taker { KeepsTaker false (taking T.Taker taker.old) (taking T.Taker taker.new) }
{
    match found {
        Some(index) => {
            let value = value_in(&kept.values, key, index);
            value.is_value();
            hand(pool, &mut kept.own, value, taker);
            PartAnswer::Bulk
        }
        None => PartAnswer::Null,
    }
}

/// A range of the value goes to the taker. A missing key has no bytes.
pub(crate) fn get_range<P: PoolName, T: Taker<P>>(
    pool: &Pool<P>,
    kept: &mut Kept<P>,
    key: &[u8],
    start: i64,
    end: i64,
    taker: &mut T,
) -> PartAnswer
    requires kept { IsKept P.sizes kept.old.values.entries kept.old.own }
    requires taker { MayTake false true (taking T.Taker taker.old) }
    ensures kept { IsKept P.sizes kept.new.values.entries kept.new.own }
    ensures agrees { let hs = kept.old.own.holds in let now = kept.new.own.holds in
        StillAgrees P.sizes kept.old.values.entries hs kept.new.values.entries now }
    ensures says { result ≡ PartAnswer.Bulk }
    ensures taken { (s : Store) (p : Places) → Agrees P.sizes kept.old.values.entries kept.old.own.holds s p
        → T.taken taker.new ≡ T.taken taker.old
        ++ pieces_at ranged false (answered (range_of (bytes_at s key.now) start end)) (places_at p key.now)
        (first_place (length (bytes_at s key.now)) start) }
    ensures taker { KeepsTaker true (taking T.Taker taker.old) (taking T.Taker taker.new) }
{
    match kept.values.get(key) {
        Some(slot) => {
            let value = slot.value();
            value.is_value();
            let Span { from, len } = span(value.len(), start, end);
            hand_range(pool, &mut kept.own, value, from, len, taker);
            PartAnswer::Bulk
        }
        None => {
            taker.begin_part(0);
            taker.finish();
            PartAnswer::Bulk
        }
    }
}

/// Whether the key is there.
pub(crate) fn exists<P: PoolName>(kept: &Kept<P>, key: &[u8]) -> bool
    ensures { (s : Store) (p : Places) → Agrees P.sizes kept.now.values.entries kept.now.own.holds s p
        → result ≡ is_some (finite.get s key.now) }
{
    kept.values.contains_key(key)
}

/// How many bytes the key has.
pub(crate) fn size<P: PoolName>(kept: &Kept<P>, key: &[u8]) -> u64
    requires kept { IsKept P.sizes kept.now.values.entries kept.now.own }
    ensures { (s : Store) (p : Places) → Agrees P.sizes kept.now.values.entries kept.now.own.holds s p
        → result ≡ length (bytes_at s key.now) }
{
    match kept.values.get(key) {
        Some(slot) => slot.value().len(),
        None => 0,
    }
}
