//! Replies as they are planned, and as they are given back.
ghost use Rattle.std.specs.Prelude.{◌≡◌, ◌+◌, ◌*◌, ◌<◌, ◌≤◌, ◌++◌, length, None, IfOk};
ghost use Rattle.frag_value.specs.Values.{HasValue};
ghost use Rattle.reply_layout.specs.Gathered.{text_of_pieces};
ghost use Rattle.reply_planner.specs.Laid.{pieces_in};
ghost use Rattle.reply_planner.specs.Owned.{AreOwn};
ghost use Rattle.reply_planner.specs.Planned.{room_of};
ghost use Rattle.reply_planner.specs.Stages.{stage_size};
ghost use Rattle.reply_bench.specs.Desks.{IsDesk, HasLent, most_credits};

use crate::asked::Asked;
use flake_base::Memory;
use frag_value::{Value, hand};
use pinned_pool::{Pool, PoolName, PoolSeat};
use reply_planner::{Need, Parcel, Plan, Stage};

/// A run of at least so many bytes stays where it lies.
const THRESHOLD: u32 = 512;

// Seals a plan.
#[inline(always)]
fn seal<N: PoolName>(plan: Plan<'_, N>, seat: &mut PoolSeat<N>, stage: &mut Stage<N>) -> Parcel<N>
    requires done { plan.begun ≡ None }
    requires some { 0 < length (text_of_pieces (pieces_in plan.taken)) }
    requires whole { length stage.old + length plan.base.stage ≡ stage_size }
    requires own { AreOwn seat.old.holds (stage.old ++ plan.base.stage) }
    requires rich { most_credits ≤ seat.old.credits + plan.base.descriptors + 3 }
    ensures { HasLent result stage.new seat.new }
{
    plan.seal(seat, stage, 0)
}

// The reply to a PING.
fn plan_line<N: PoolName>(
    pool: &Pool<N>,
    seat: &mut PoolSeat<N>,
    stage: &mut Stage<N>,
) -> Result<Parcel<N>, Memory>
    requires desk { IsDesk stage.old seat.old }
    ensures lent { IfOk result (λ reply. HasLent reply stage.new seat.new) }
{
    let mut plan = Plan::start(pool, seat, stage, Need::line(), THRESHOLD)?;
    plan.copy(b"+PONG\r\n");
    Ok(seal(plan, seat, stage))
}

// The reply to a GET.
fn plan_value<N: PoolName>(
    pool: &Pool<N>,
    seat: &mut PoolSeat<N>,
    stage: &mut Stage<N>,
    owner: &mut PoolSeat<N>,
    value: &Value<N>,
) -> Result<Parcel<N>, Memory>
    requires desk { IsDesk stage.old seat.old }
    requires value { HasValue owner.old.holds value.now }
    ensures lent { IfOk result (λ reply. HasLent reply stage.new seat.new) }
    ensures value { IfOk result (λ _. HasValue owner.new.holds value.now) }
{
    let need = Need::values(1, 0);
    let mut plan = Plan::start(pool, seat, stage, need, THRESHOLD)?;
    hand(pool, owner, value, &mut plan);
    Ok(seal(plan, seat, stage))
}

// Hands a value over and over.
fn hand_often<N: PoolName>(
    pool: &Pool<N>,
    owner: &mut PoolSeat<N>,
    value: &Value<N>,
    plan: &mut Plan<'_, N>,
    times: usize,
)
    requires none { plan.old.begun ≡ None }
    requires room { times ≤ room_of plan.old }
    requires value { HasValue owner.old.holds value.now }
    ensures none { plan.new.begun ≡ None }
    ensures base { plan.new.base ≡ plan.old.base }
    ensures some { 0 < times → 0 < length (text_of_pieces (pieces_in plan.new.taken)) }
    ensures value { HasValue owner.new.holds value.now }
{
    for _ in 0..times {
        hand(pool, owner, value, plan);
    }
}

// The reply to an MGET of keys that have the same value.
fn plan_values<N: PoolName>(
    pool: &Pool<N>,
    seat: &mut PoolSeat<N>,
    stage: &mut Stage<N>,
    owner: &mut PoolSeat<N>,
    value: &Value<N>,
    asked: Asked<'_>,
) -> Result<Parcel<N>, Memory>
    requires desk { IsDesk stage.old seat.old }
    requires value { HasValue owner.old.holds value.now }
    requires values { 0 < asked.values }
    ensures lent { IfOk result (λ reply. HasLent reply stage.new seat.new) }
    ensures value { IfOk result (λ _. HasValue owner.new.holds value.now) }
{
    let need = Need::values(asked.values, asked.head.len());
    let mut plan = Plan::start(pool, seat, stage, need, THRESHOLD)?;
    plan.copy(asked.head);
    hand_often(pool, owner, value, &mut plan, asked.values);
    Ok(seal(plan, seat, stage))
}

/// The reply that is asked for.
pub fn plan_reply<N: PoolName>(
    pool: &Pool<N>,
    seat: &mut PoolSeat<N>,
    stage: &mut Stage<N>,
    owner: &mut PoolSeat<N>,
    value: &Value<N>,
    asked: Asked<'_>,
) -> Result<Parcel<N>, Memory>
    requires desk { IsDesk stage.old seat.old }
    requires value { HasValue owner.old.holds value.now }
    ensures lent { IfOk result (λ reply. HasLent reply stage.new seat.new) }
    ensures value { IfOk result (λ _. HasValue owner.new.holds value.now) }
{
    match asked.values {
        0 => plan_line(pool, seat, stage),
        1 => plan_value(pool, seat, stage, owner, value),
        _ => plan_values(pool, seat, stage, owner, value, asked),
    }
}
