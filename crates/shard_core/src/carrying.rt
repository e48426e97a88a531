//! A value goes to the seat that pays, gets longer there, and comes back.
ghost use Rattle.std.specs.Prelude.{◌≡◌, ◌<◌, [], length, IfOk, IfErr};
ghost use Rattle.view_sums.specs.Total.{Each};
ghost use Rattle.frag_value.specs.Changes.{found_none_behind};
ghost use Rattle.frag_value.specs.Values.{HasValue, IsFilled, IsValue, keys_of, value_bytes};
ghost use Rattle.pinned_pool.specs.Moves.{holds_for, losing, gaining};
ghost use Rattle.flake_model.specs.Store.{append as append_op};
ghost use Rattle.pin_core.specs.declared.class.Class.{Class};
ghost use Rattle.shard_core.specs.Demand.{part_row};
ghost use Rattle.shard_core.specs.Moved.{IsCarried, IsLonger};
ghost use Rattle.shard_core.specs.Paid.{IsPaid, LacksBehind, WhyUnadded};

use frag_value::{AppendError, Value, append_from};
use pinned_pool::{ClaimStart, Pool, PoolName, PoolSeat};
use std::alloc::Global;

// The value's holds go to the seat that pays.
fn bring_out<P: PoolName>(
    pool: &Pool<P>,
    own: &mut PoolSeat<P>,
    payer: &mut PoolSeat<P>,
    value: &Value<P>,
)
    requires value { HasValue own.old.holds value.now }
    requires credits { 1 < payer.old.credits }
    ensures own { own.new ≡ losing (keys_of value.now) own.old }
    ensures payer { payer.new ≡ gaining (holds_for (keys_of value.now) own.old.holds) payer.old }
    ensures value { HasValue payer.new.holds value.now }
    ensures bytes { value_bytes payer.new.holds value.now ≡ value_bytes own.old.holds value.now }
{
    own.is_seat();
    pool.fetch(own, payer, value);
    payer.is_seat();
}

// And back from it.
fn bring_back<P: PoolName>(
    pool: &Pool<P>,
    own: &mut PoolSeat<P>,
    payer: &mut PoolSeat<P>,
    value: &Value<P>,
)
    requires value { HasValue payer.old.holds value.now }
    requires credits { 1 < payer.old.credits }
    ensures own { own.new ≡ gaining (holds_for (keys_of value.now) payer.old.holds) own.old }
    ensures payer { payer.new ≡ losing (keys_of value.now) payer.old }
    ensures filled { Each (IsFilled own.new.holds) value.now }
    ensures bytes { value_bytes own.new.holds value.now ≡ value_bytes payer.old.holds value.now }
    ensures value { IsValue P.sizes value.now }
{
    payer.is_seat();
    value.is_value();
    pool.lend(payer, own, value);
    own.is_seat();
}

/// The value with bytes behind it, for which buffers are claimed from the start on, or the value and why not.
pub(crate) fn extend<P: PoolName>(
    alloc: Global,
    pool: &Pool<P>,
    own: &mut PoolSeat<P>,
    payer: &mut PoolSeat<P>,
    old: Value<P>,
    bytes: &[u8],
    start: ClaimStart,
) -> Result<Value<P>, (AppendError, Value<P>)>
    requires value { HasValue own.old.holds old }
    requires credits { 1 < payer.old.credits }
    ensures carried { IfOk result (λ w. IsCarried P.sizes old w own.old own.new) }
    ensures longer { IfOk result (λ w. IsLonger old w bytes.now own.old.holds own.new.holds) }
    ensures returned { IfErr result (λ e. (e.1 ≡ old) × IsCarried P.sizes old old own.old own.new) }
    ensures same { IfErr result (λ e. value_bytes own.new.holds old ≡ value_bytes own.old.holds old) }
    ensures cause { IfErr result (λ e. WhyUnadded P.sizes old bytes.now e.0 payer.old payer.new) }
    ensures lacks { IfErr result
        (λ e. LacksBehind P.sizes (value_bytes own.old.holds old) bytes.now e.0 payer.old payer.new) }
    ensures paid { IsPaid P.sizes (λ (class : Class). part_row class (append_op [] bytes.now))
        (found_none_behind result) payer.old payer.new }
{
    old.is_value();
    bring_out(pool, own, payer, &old);
    payer.is_seat();
    match append_from(alloc, pool, payer, old, bytes, start) {
        Ok(value) => {
            bring_back(pool, own, payer, &value);
            Ok(value)
        }
        Err((error, value)) => {
            bring_back(pool, own, payer, &value);
            Err((error, value))
        }
    }
}
