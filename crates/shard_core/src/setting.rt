//! Sets and dels.
ghost use Rattle.std.specs.Prelude.{◌≡◌, ◌+◌, ◌<◌, ◌≤◌, true, false, length, is_some, IfErr, OnOk, OnErr};
ghost use Rattle.std.specs.FinMap as finite;
ghost use Rattle.indexmap.specs.IndexMap.{index_of_by};
ghost use Rattle.flake_model.specs.Store.{Store, set as set_op, stores};
ghost use Rattle.flake_model.specs.Deed.{Places};
ghost use Rattle.frag_value.specs.Changes.{WhyUnplaced, found_none};
ghost use Rattle.frag_value.specs.Fragments.{frags_limit, stored_fragments, fragments_in};
ghost use Rattle.flake_base.specs.Limits.{value_limit};
ghost use Rattle.pin_core.specs.declared.class.Class.{Class};
ghost use Rattle.shard_core.specs.Done.{Does, DoesPart};
ghost use Rattle.shard_core.specs.Keys.{is_key};
ghost use Rattle.shard_core.specs.Kept.{IsKept, Agrees, IsAsBefore, bytes_kept};
ghost use Rattle.shard_core.specs.KeptViews.{kept_state};
ghost use Rattle.shard_core.specs.Paid.{IsPaid};
ghost use Rattle.shard_core.specs.Takers.{MayTake, KeepsTaker, taking};
ghost use Rattle.shard_part.specs.Settings.{when_of, set_by};

use crate::answer::PartAnswer;
use crate::giving::give_up;
use crate::kept::Kept;
use crate::placing::place;
use crate::reading::get;
use flake_base::Segs;
use frag_value::{PlaceError, Taker, release};
use pinned_pool::{Pool, PoolName, PoolSeat};
use shard_part::{Part, Setting, When};

/// A set that stores. The new value stands before the old one goes.
fn store<P: PoolName, T: Taker<P>>(
    pool: &Pool<P>,
    kept: &mut Kept<P>,
    payer: &mut PoolSeat<P>,
    part: &Part<'_>,
    setting: Setting,
    found: Option<usize>,
    taker: &mut T,
    stored: &mut Segs,
) -> Result<PartAnswer, PlaceError>
    requires kept { IsKept P.sizes kept.old.values.entries kept.old.own }
    requires found { index_of_by (is_key part.now.key.now) kept.old.values ≡ found }
    requires stores { let had = bytes_kept part.now.key.now kept.old.values.entries kept.old.own.holds in
        stores (when_of setting.when) had ≡ true }
    requires few { length part.now.value.now ≤ value_limit }
    requires credits { 1 < payer.old.credits }
    requires spare { frags_limit ≤ stored.old.spare }
    requires taker { MayTake setting.asks false (taking T.Taker taker.old) }
    ensures kept { OnOk result (IsKept P.sizes kept.new.values.entries kept.new.own) }
    ensures done { Does P.sizes (set_by setting part.now.key.now part.now.value.now) result
        (kept_state kept.old payer.old stored.old.items (T.taken taker.old))
        (kept_state kept.new payer.new stored.new.items (T.taken taker.new)) }
    ensures refused { OnErr result (IsAsBefore kept.old.values.entries kept.new.values.entries kept.old.own kept.new.own
        stored.old.items stored.new.items) }
    ensures untaken { OnErr result (T.taken taker.new ≡ T.taken taker.old) }
    ensures cause { IfErr result
        (λ e. WhyUnplaced P.sizes (stored_fragments part.now.value.now) e payer.old payer.new) }
    ensures paid { IsPaid P.sizes (λ (class : Class). fragments_in class (stored_fragments part.now.value.now))
        (found_none result) payer.old payer.new }
    ensures spare { stored.old.spare + length stored.old.items ≤ stored.new.spare + length stored.new.items }
    ensures taker { KeepsTaker false (taking T.Taker taker.old) (taking T.Taker taker.new) }
{
    let old = place(pool, kept, payer, part.key, found, part.value, stored)?;
    kept.own.is_seat();
    Ok(give_up(pool, &mut kept.own, old, setting.asks, taker))
}

/// The key and its value go. The answer is whether it was there.
pub(crate) fn del<P: PoolName>(pool: &Pool<P>, kept: &mut Kept<P>, key: &[u8]) -> bool
    requires kept { IsKept P.sizes kept.old.values.entries kept.old.own }
    ensures kept { IsKept P.sizes kept.new.values.entries kept.new.own }
    ensures agrees { (s : Store) (p : Places) → Agrees P.sizes kept.old.values.entries kept.old.own.holds s p
        → Agrees P.sizes kept.new.values.entries kept.new.own.holds
        (finite.remove s key.now) (finite.remove p key.now) }
    ensures says { (s : Store) (p : Places) → Agrees P.sizes kept.old.values.entries kept.old.own.holds s p
        → result ≡ is_some (finite.get s key.now) }
{
    kept.own.is_seat();
    match kept.values.swap_remove(key) {
        Some(old) => {
            release(pool, &mut kept.own, old.into_value());
            true
        }
        None => false,
    }
}

impl<P: PoolName> Kept<P> {
    /// A set, whether it stores or not.
    pub(crate) fn set<T: Taker<P>>(
        &mut self,
        pool: &Pool<P>,
        payer: &mut PoolSeat<P>,
        part: &Part<'_>,
        when: When,
        asks: bool,
        taker: &mut T,
        stored: &mut Segs,
    ) -> Result<PartAnswer, PlaceError>
        requires kept { IsKept P.sizes self.old.values.entries self.old.own }
        requires few { length part.now.value.now ≤ value_limit }
        requires credits { 1 < payer.old.credits }
        requires spare { frags_limit ≤ stored.old.spare }
        requires taker { MayTake asks false (taking T.Taker taker.old) }
        ensures kept { IsKept P.sizes self.new.values.entries self.new.own }
        ensures part { DoesPart P.sizes (set_op (when_of when) asks part.now.key.now part.now.value.now) result
            (kept_state self.old payer.old stored.old.items (T.taken taker.old))
            (kept_state self.new payer.new stored.new.items (T.taken taker.new)) }
        ensures spare { stored.old.spare + length stored.old.items ≤ stored.new.spare + length stored.new.items }
        ensures taker { KeepsTaker false (taking T.Taker taker.old) (taking T.Taker taker.new) }
    {
        let found = self.values.get_index_of(part.key);
        if when.stores(found.is_some()) {
            let setting = Setting { when, asks };
            return store(pool, self, payer, part, setting, found, taker, stored);
        }
        if asks {
            Ok(get(pool, self, part.key, found, taker))
        } else {
            Ok(PartAnswer::Null)
        }
    }
}
