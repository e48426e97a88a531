//! Appends.
ghost use Rattle.std.specs.Prelude.{◌≡◌, ◌+◌, ◌<◌, ◌≤◌, List, Some, None, length};
ghost use Rattle.indexmap.specs.IndexMap.{index_of_by};
ghost use Rattle.flake_model.specs.Store.{append as append_op};
ghost use Rattle.frag_value.specs.Fragments.{frags_limit};
ghost use Rattle.flake_base.specs.Limits.{value_limit};
ghost use Rattle.frag_value.specs.Taken.{TakenPiece};
ghost use Rattle.shard_core.specs.Done.{DoesPart};
ghost use Rattle.shard_core.specs.Keys.{is_key};
ghost use Rattle.shard_core.specs.Kept.{IsKept};
ghost use Rattle.shard_core.specs.KeptViews.{kept_state};
ghost use Rattle.shard_core.specs.Answers.{outcome_of};

use crate::answer::PartAnswer;
use crate::carrying::extend;
use crate::kept::{Kept, exchange};
use crate::placing::place_first;
use crate::showing::show;
use flake_base::Segs;
use frag_value::{AppendError, PlaceError, Value};
use pinned_pool::{Pool, PoolName, PoolSeat};

// Bytes for a key that is missing.
fn add_first<P: PoolName>(
    pool: &Pool<P>,
    kept: &mut Kept<P>,
    payer: &mut PoolSeat<P>,
    key: &[u8],
    bytes: &[u8],
    stored: &mut Segs,
) -> Result<PartAnswer, PlaceError>
    requires kept { IsKept P.sizes kept.old.values.entries kept.old.own }
    requires missing { index_of_by (is_key key.now) kept.old.values ≡ None }
    requires few { length bytes.now ≤ value_limit }
    requires credits { 1 < payer.old.credits }
    requires spare { frags_limit ≤ stored.old.spare }
    ensures kept { IsKept P.sizes kept.new.values.entries kept.new.own }
    ensures part { (t : List TakenPiece) → DoesPart P.sizes (append_op key.now bytes.now) result
        (kept_state kept.old payer.old stored.old.items t)
        (kept_state kept.new payer.new stored.new.items t) }
    ensures spare { stored.old.spare + length stored.old.items ≤ stored.new.spare + length stored.new.items }
{
    match place_first(pool, kept, payer, key, bytes, stored) {
        Ok(()) => {}
        Err(error) => return Err(error),
    }
    let length = bytes.len() as u64;
    Ok(PartAnswer::Length(length))
}

// Why the append is refused, unless it is its answer.
fn refused(error: AppendError) -> Result<PartAnswer, PlaceError>
    ensures { result ≡ outcome_of error }
{
    match error {
        AppendError::TooLong { length: _ } => Ok(PartAnswer::TooLong),
        AppendError::NoBuffer(none) => Err(PlaceError::NoBuffer(none)),
        AppendError::Memory => Err(PlaceError::Memory),
    }
}

// Bytes behind the value that the key has at this index. While it is away, an empty value has its place.
fn add_more<P: PoolName>(
    pool: &Pool<P>,
    kept: &mut Kept<P>,
    payer: &mut PoolSeat<P>,
    key: &[u8],
    index: usize,
    bytes: &[u8],
    stored: &mut Segs,
) -> Result<PartAnswer, PlaceError>
    requires kept { IsKept P.sizes kept.old.values.entries kept.old.own }
    requires there { index_of_by (is_key key.now) kept.old.values ≡ Some index }
    requires few { length bytes.now ≤ value_limit }
    requires credits { 1 < payer.old.credits }
    requires spare { frags_limit ≤ stored.old.spare }
    ensures kept { IsKept P.sizes kept.new.values.entries kept.new.own }
    ensures part { (t : List TakenPiece) → DoesPart P.sizes (append_op key.now bytes.now) result
        (kept_state kept.old payer.old stored.old.items t)
        (kept_state kept.new payer.new stored.new.items t) }
    ensures spare { stored.old.spare + length stored.old.items ≤ stored.new.spare + length stored.new.items }
{
    kept.own.is_seat();
    let old = exchange(&mut kept.values, key, index, Value::empty(kept.alloc));
    old.is_value();
    match extend(
        kept.alloc,
        pool,
        &mut kept.own,
        payer,
        old,
        bytes,
        kept.start,
    ) {
        Ok(value) => {
            let length = value.len();
            show(pool, &value, stored);
            let _ = exchange(&mut kept.values, key, index, value);
            Ok(PartAnswer::Length(length))
        }
        Err((error, value)) => {
            let _ = exchange(&mut kept.values, key, index, value);
            refused(error)
        }
    }
}

/// Puts bytes behind what the key has.
pub(crate) fn add<P: PoolName>(
    pool: &Pool<P>,
    kept: &mut Kept<P>,
    payer: &mut PoolSeat<P>,
    key: &[u8],
    bytes: &[u8],
    stored: &mut Segs,
) -> Result<PartAnswer, PlaceError>
    requires kept { IsKept P.sizes kept.old.values.entries kept.old.own }
    requires few { length bytes.now ≤ value_limit }
    requires credits { 1 < payer.old.credits }
    requires spare { frags_limit ≤ stored.old.spare }
    ensures kept { IsKept P.sizes kept.new.values.entries kept.new.own }
    ensures part { (t : List TakenPiece) → DoesPart P.sizes (append_op key.now bytes.now) result
        (kept_state kept.old payer.old stored.old.items t)
        (kept_state kept.new payer.new stored.new.items t) }
    ensures spare { stored.old.spare + length stored.old.items ≤ stored.new.spare + length stored.new.items }
{
    match kept.values.get_index_of(key) {
        Some(index) => add_more(pool, kept, payer, key, index, bytes, stored),
        None => add_first(pool, kept, payer, key, bytes, stored),
    }
}
