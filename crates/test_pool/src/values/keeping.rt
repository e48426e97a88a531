//! Values that one seat keeps and another one pays for, by the laws of what a seat has exactly.
ghost use Rattle.std.specs.Prelude.{◌≡◌, ◌<◌, ◌≤◌, List, ◌∷◌, length, IfOk, IfErr, OnErr};
ghost use Rattle.flake_base.specs.Limits.{value_limit};
ghost use Rattle.frag_value.specs.Values.{Frags};
ghost use Rattle.frag_value.specs.Exactly.{HasExactly};

use frag_value::{AppendError, PlaceError, Value, append, release, write};
use pinned_pool::{Pool, PoolName, PoolSeat};
use std::alloc::Global;

/// Writes a value on the payer's seat, and lends it to the owner.
pub(crate) fn keep_one<N: PoolName>(
    alloc: Global,
    pool: &Pool<N>,
    owner: &mut PoolSeat<N>,
    payer: &mut PoolSeat<N>,
    bytes: &[u8],
) -> Result<Value<N>, PlaceError>
    requires { (length bytes.now ≤ value_limit) × (1 < payer.old.credits) }
    ensures one_more { (values : List Frags) → HasExactly N.sizes owner.old.holds values
        → IfOk result (λ v. HasExactly N.sizes owner.new.holds (v ∷ values)) }
    ensures refused { OnErr result (owner.new ≡ owner.old) }
    ensures payer { (payer.new.holds ≡ payer.old.holds) × (payer.new.credits ≡ payer.old.credits) }
{
    let value = write(alloc, pool, payer, bytes)?;
    value.is_value();
    payer.is_seat();
    pool.lend(payer, owner, &value);
    owner.is_seat();
    Ok(value)
}

/// Writes a value in another one's place. The old one is released once the new one stands.
pub(crate) fn keep_other<N: PoolName>(
    alloc: Global,
    pool: &Pool<N>,
    owner: &mut PoolSeat<N>,
    payer: &mut PoolSeat<N>,
    old: Value<N>,
    bytes: &[u8],
) -> Result<Value<N>, (PlaceError, Value<N>)>
    requires few { (length bytes.now ≤ value_limit) × (1 < payer.old.credits) }
    requires exactly { (values : List Frags) × HasExactly N.sizes owner.old.holds (old ∷ values) }
    ensures refused { IfErr result (λ e. (e.1 ≡ old) × (owner.new ≡ owner.old)) }
    ensures other { (values : List Frags) → HasExactly N.sizes owner.old.holds (old ∷ values)
        → IfOk result (λ v. HasExactly N.sizes owner.new.holds (v ∷ values)) }
    ensures payer { (payer.new.holds ≡ payer.old.holds) × (payer.new.credits ≡ payer.old.credits) }
{
    let value = match keep_one(alloc, pool, owner, payer, bytes) {
        Ok(value) => value,
        Err(error) => return Err((error, old)),
    };
    owner.is_seat();
    release(pool, owner, old);
    Ok(value)
}

/// Appends to a value on the payer's seat, to which it goes for that.
pub(crate) fn keep_longer<N: PoolName>(
    alloc: Global,
    pool: &Pool<N>,
    owner: &mut PoolSeat<N>,
    payer: &mut PoolSeat<N>,
    value: Value<N>,
    bytes: &[u8],
) -> Result<Value<N>, (AppendError, Value<N>)>
    requires some { (0 < length bytes.now) × (1 < payer.old.credits) }
    requires exactly { (values : List Frags) × HasExactly N.sizes owner.old.holds (value ∷ values) }
    ensures longer { (values : List Frags) → HasExactly N.sizes owner.old.holds (value ∷ values)
        → IfOk result (λ v. HasExactly N.sizes owner.new.holds (v ∷ values)) }
    ensures refused { (values : List Frags) → HasExactly N.sizes owner.old.holds (value ∷ values)
        → IfErr result (λ e. (e.1 ≡ value) × HasExactly N.sizes owner.new.holds (value ∷ values)) }
    ensures payer { (payer.new.holds ≡ payer.old.holds) × (payer.new.credits ≡ payer.old.credits) }
{
    value.is_value();
    owner.is_seat();
    pool.fetch(owner, payer, &value);
    payer.is_seat();
    match append(alloc, pool, payer, value, bytes) {
        Ok(value) => {
            value.is_value();
            payer.is_seat();
            pool.lend(payer, owner, &value);
            owner.is_seat();
            Ok(value)
        }
        Err((error, value)) => {
            payer.is_seat();
            pool.lend(payer, owner, &value);
            owner.is_seat();
            Err((error, value))
        }
    }
}
