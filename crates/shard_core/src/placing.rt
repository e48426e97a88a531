//! A value goes from bytes to a shard.
ghost use Rattle.std.specs.Prelude.{◌≡◌, ◌+◌, ◌<◌, ◌≤◌, ◌++◌, None, Some, length, IfOk, IfErr, OnOk, OnErr};
ghost use Rattle.indexmap.specs.IndexMap.{index_of_by};
ghost use Rattle.frag_value.specs.Fragments.{frags_limit, stored_fragments, fragments_in};
ghost use Rattle.flake_base.specs.Limits.{value_limit};
ghost use Rattle.frag_value.specs.Changes.{WhyUnplaced, found_none};
ghost use Rattle.pin_core.specs.declared.class.Class.{Class};
ghost use Rattle.shard_core.specs.Keys.{is_key};
ghost use Rattle.shard_core.specs.Kept.{IsKept, value_at, IsAsBefore};
ghost use Rattle.shard_core.specs.Moved.{IsBrought, BytesWerePut};
ghost use Rattle.shard_core.specs.Paid.{IsPaid};

use crate::kept::{Kept, exchange, insert};
use crate::showing::show;
use flake_base::Segs;
use frag_value::{PlaceError, Value, write_from};
use pinned_pool::{ClaimStart, Pool, PoolName, PoolSeat};
use std::alloc::Global;

/// Writes bytes into buffers that one seat claims, each from the start on, and hands the holds to another.
pub(crate) fn bring<P: PoolName>(
    alloc: Global,
    pool: &Pool<P>,
    own: &mut PoolSeat<P>,
    payer: &mut PoolSeat<P>,
    bytes: &[u8],
    start: ClaimStart,
) -> Result<Value<P>, PlaceError>
    requires few { length bytes.now ≤ value_limit }
    requires credits { 1 < payer.old.credits }
    ensures brought { IfOk result (λ v. IsBrought P.sizes bytes.now v own.old own.new) }
    ensures refused { OnErr result (own.new ≡ own.old) }
    ensures cause { IfErr result (λ e. WhyUnplaced P.sizes (stored_fragments bytes.now) e payer.old payer.new) }
    ensures paid { IsPaid P.sizes (λ (class : Class). fragments_in class (stored_fragments bytes.now))
        (found_none result)
        payer.old payer.new }
{
    let value = write_from(alloc, pool, payer, bytes, start)?;
    payer.is_seat();
    pool.lend(payer, own, &value);
    own.is_seat();
    value.is_value();
    Ok(value)
}

// Puts a new value in the place of the one that the key has, which is handed back.
fn place_over<P: PoolName>(
    pool: &Pool<P>,
    kept: &mut Kept<P>,
    payer: &mut PoolSeat<P>,
    key: &[u8],
    index: usize,
    bytes: &[u8],
    stored: &mut Segs,
) -> Result<Value<P>, PlaceError>
    requires kept { IsKept P.sizes kept.old.values.entries kept.old.own }
    requires found { index_of_by (is_key key.now) kept.old.values ≡ Some index }
    requires few { length bytes.now ≤ value_limit }
    requires credits { 1 < payer.old.credits }
    requires spare { frags_limit ≤ stored.old.spare }
    ensures placed { IfOk result (λ old. BytesWerePut P.sizes key.now bytes.now
        kept.old.values.entries kept.new.values.entries kept.old.own kept.new.own (Some old)
        stored.old.items stored.new.items) }
    ensures refused { OnErr result (IsAsBefore kept.old.values.entries kept.new.values.entries kept.old.own kept.new.own
        stored.old.items stored.new.items) }
    ensures spare { stored.old.spare + length stored.old.items ≤ stored.new.spare + length stored.new.items }
    ensures cause { IfErr result (λ e. WhyUnplaced P.sizes (stored_fragments bytes.now) e payer.old payer.new) }
    ensures paid { IsPaid P.sizes (λ (class : Class). fragments_in class (stored_fragments bytes.now))
        (found_none result)
        payer.old payer.new }
{
    let value = bring(kept.alloc, pool, &mut kept.own, payer, bytes, kept.start)?;
    show(pool, &value, stored);
    Ok(exchange(&mut kept.values, key, index, value))
}

/// Puts a value at a key that is missing.
pub(crate) fn place_first<P: PoolName>(
    pool: &Pool<P>,
    kept: &mut Kept<P>,
    payer: &mut PoolSeat<P>,
    key: &[u8],
    bytes: &[u8],
    stored: &mut Segs,
) -> Result<(), PlaceError>
    requires kept { IsKept P.sizes kept.old.values.entries kept.old.own }
    requires missing { value_at key.now kept.old.values.entries ≡ None }
    requires few { length bytes.now ≤ value_limit }
    requires credits { 1 < payer.old.credits }
    requires spare { frags_limit ≤ stored.old.spare }
    ensures placed { OnOk result (BytesWerePut P.sizes key.now bytes.now
        kept.old.values.entries kept.new.values.entries kept.old.own kept.new.own None
        stored.old.items stored.new.items) }
    ensures refused { OnErr result (IsAsBefore kept.old.values.entries kept.new.values.entries kept.old.own kept.new.own
        stored.old.items stored.new.items) }
    ensures spare { stored.old.spare + length stored.old.items ≤ stored.new.spare + length stored.new.items }
    ensures cause { IfErr result (λ e. WhyUnplaced P.sizes (stored_fragments bytes.now) e payer.old payer.new) }
    ensures paid { IsPaid P.sizes (λ (class : Class). fragments_in class (stored_fragments bytes.now))
        (found_none result)
        payer.old payer.new }
{
    let Ok(name) = Vec::from_slice(kept.alloc, key) else {
        return Err(PlaceError::Memory);
    };
    let Ok(()) = kept.values.reserve(1) else {
        return Err(PlaceError::Memory);
    };
    let value = bring(kept.alloc, pool, &mut kept.own, payer, bytes, kept.start)?;
    show(pool, &value, stored);
    insert(&mut kept.values, name, value);
    Ok(())
}

/// Puts a new value at a key, which was looked up. What the key had is handed back, and its holds are still there.
pub(crate) fn place<P: PoolName>(
    pool: &Pool<P>,
    kept: &mut Kept<P>,
    payer: &mut PoolSeat<P>,
    key: &[u8],
    found: Option<usize>,
    bytes: &[u8],
    stored: &mut Segs,
) -> Result<Option<Value<P>>, PlaceError>
    requires kept { IsKept P.sizes kept.old.values.entries kept.old.own }
    requires found { index_of_by (is_key key.now) kept.old.values ≡ found }
    requires few { length bytes.now ≤ value_limit }
    requires credits { 1 < payer.old.credits }
    requires spare { frags_limit ≤ stored.old.spare }
    ensures placed { IfOk result (λ old. BytesWerePut P.sizes key.now bytes.now
        kept.old.values.entries kept.new.values.entries kept.old.own kept.new.own old
        stored.old.items stored.new.items) }
    ensures refused { OnErr result (IsAsBefore kept.old.values.entries kept.new.values.entries kept.old.own kept.new.own
        stored.old.items stored.new.items) }
    ensures spare { stored.old.spare + length stored.old.items ≤ stored.new.spare + length stored.new.items }
    ensures cause { IfErr result (λ e. WhyUnplaced P.sizes (stored_fragments bytes.now) e payer.old payer.new) }
    ensures paid { IsPaid P.sizes (λ (class : Class). fragments_in class (stored_fragments bytes.now))
        (found_none result)
        payer.old payer.new }
{
    match found {
        Some(index) => {
            let old = place_over(pool, kept, payer, key, index, bytes, stored)?;
            Ok(Some(old))
        }
        None => {
            place_first(pool, kept, payer, key, bytes, stored)?;
            Ok(None)
        }
    }
}
