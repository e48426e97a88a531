//! Replies as they are planned, and as they are given back.
ghost use Rattle.std.specs.Prelude.{◌≡◌, ◌+◌, ◌<◌, ◌≤◌, ◌++◌, length, None, IfOk};
ghost use Rattle.frag_value.specs.Values.{HasValue};
ghost use Rattle.reply_layout.specs.Gathered.{text_of_pieces};
ghost use Rattle.reply_planner.specs.Laid.{pieces_in};
ghost use Rattle.reply_planner.specs.Owned.{AreOwn};
ghost use Rattle.reply_planner.specs.Planned.{room_of};
ghost use Rattle.reply_planner.specs.Stages.{stage_size};
ghost use Rattle.card_cases.specs.Desks.{IsDesk, HasLent, most_credits};

use crate::case::Case;
use flake_base::Memory;
use frag_value::{Value, hand};
use pinned_pool::{Pool, PoolName, PoolSeat};
use reply_planner::{Need, Parcel, Plan, Stage, give_back};
use resp_text::{line, line_size};

// Seals a plan.
fn seal<N: PoolName>(plan: Plan<'_, N>, seat: &mut PoolSeat<N>, stage: &mut Stage<N>) -> Parcel<N>
    requires done { plan.begun ≡ None }
    requires some { 0 < length (text_of_pieces (pieces_in plan.taken)) }
    requires whole { length stage.old + length plan.base.stage ≡ stage_size }
    requires own { AreOwn seat.old.holds (stage.old ++ plan.base.stage) }
    requires rich { most_credits ≤ seat.old.credits + plan.base.descriptors + 3 }
    ensures { HasLent result stage.new seat.new }
{
    plan.seal(seat, stage, 0)
}

// Hands a value over and over.
fn hand_often<N: PoolName>(
    pool: &Pool<N>,
    owner: &mut PoolSeat<N>,
    value: &Value<N>,
    plan: &mut Plan<'_, N>,
    times: usize,
)
    requires none { plan.old.begun ≡ None }
    requires room { times ≤ room_of plan.old }
    requires value { HasValue owner.old.holds value.now }
    ensures none { plan.new.begun ≡ None }
    ensures base { plan.new.base ≡ plan.old.base }
    ensures some { 0 < times → 0 < length (text_of_pieces (pieces_in plan.new.taken)) }
    ensures value { HasValue owner.new.holds value.now }
{
    for _ in 0..times {
        hand(pool, owner, value, plan);
    }
}

/// The reply of a case.
pub fn plan_reply<N: PoolName>(
    pool: &Pool<N>,
    seat: &mut PoolSeat<N>,
    stage: &mut Stage<N>,
    owner: &mut PoolSeat<N>,
    value: &Value<N>,
    case: Case,
) -> Result<Parcel<N>, Memory>
    requires desk { IsDesk stage.old seat.old }
    requires value { HasValue owner.old.holds value.now }
    ensures lent { IfOk result (λ reply. HasLent reply stage.new seat.new) }
    ensures value { IfOk result (λ _. HasValue owner.new.holds value.now) }
{
    let keys = case.keys as u64;
    let size = line_size(keys);
    let need = Need::values(case.keys, size);
    let mut plan = Plan::start(pool, seat, stage, need, case.threshold)?;
    let mut head = [0; 24];
    line(&mut head, b'*', keys);
    plan.copy(&head[..size]);
    hand_often(pool, owner, value, &mut plan, case.keys);
    Ok(seal(plan, seat, stage))
}

/// Takes a reply back.
pub fn take_back<N: PoolName>(
    reply: Parcel<N>,
    pool: &Pool<N>,
    seat: &mut PoolSeat<N>,
    stage: &mut Stage<N>,
)
    requires { HasLent reply stage.old seat.old }
    ensures { IsDesk stage.new seat.new }
{
    give_back(reply, pool, seat, stage);
}
