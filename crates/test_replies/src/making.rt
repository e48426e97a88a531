//! Replies over values, as a session makes them.
ghost use Rattle.std.specs.Prelude.{◌≡◌, ◌+◌, ◌<◌, ◌≤◌, ◌++◌, length, None, IfOk};
ghost use Rattle.frag_value.specs.Values.{HasValue, size_of};
ghost use Rattle.reply_layout.specs.Gathered.{text_of_pieces};
ghost use Rattle.reply_planner.specs.Laid.{pieces_in};
ghost use Rattle.reply_planner.specs.Owned.{AreOwn};
ghost use Rattle.reply_planner.specs.Stages.{stage_size};

use flake_base::Memory;
use frag_value::{Value, hand_range};
use pinned_pool::{Pool, PoolName, PoolSeat};
use reply_planner::{Need, Parcel, Plan, Stage};
use std::alloc::Global;

/// A seat with an open stage.
#[derive(Drop)]
pub struct SessionSlot<N: PoolName> {
    pub seat: PoolSeat<N>,
    pub stage: Stage<N>,
    ghost free: { length stage ≡ stage_size },
    ghost own: { AreOwn seat.holds stage },
    ghost rich: { 200 ≤ seat.credits },
}

pub fn open_session_slot<N: PoolName>(
    alloc: Global,
    pool: &Pool<N>,
    from: &mut PoolSeat<N>,
) -> Result<SessionSlot<N>, Memory>
    requires { 200 < from.old.credits }
    ensures { IfOk result (λ _. from.new.credits + 200 ≡ from.old.credits) }
{
    let mut seat = pool.split(from, (), 200);
    let Ok(stage) = Stage::open(alloc, pool, &mut seat) else {
        return Err(Memory);
    };
    Ok(SessionSlot { seat, stage })
}

/// A reply, and what it goes back to.
#[derive(Drop)]
pub struct Made<N: PoolName> {
    pub parcel: Parcel<N>,
    pub seat: PoolSeat<N>,
    pub stage: Stage<N>,
    ghost room: { length stage + length parcel.staged ≤ stage_size },
    ghost own: { AreOwn seat.holds stage },
}

// Seals a plan.
fn seal<N: PoolName>(
    plan: Plan<'_, N>,
    mut seat: PoolSeat<N>,
    mut stage: Stage<N>,
    call: u32,
) -> Made<N>
    requires done { plan.begun ≡ None }
    requires some { 0 < length (text_of_pieces (pieces_in plan.taken)) }
    requires room { length stage + length plan.base.stage ≤ stage_size }
    requires own { AreOwn seat.holds (stage ++ plan.base.stage) }
{
    let parcel = plan.seal(&mut seat, &mut stage, call);
    Made {
        parcel,
        seat,
        stage,
    }
}

/// The reply to a range of a value.
pub fn make_range<N: PoolName>(
    pool: &Pool<N>,
    slot: SessionSlot<N>,
    owner: &mut PoolSeat<N>,
    value: &Value<N>,
    threshold: u32,
    from: u64,
    len: u64,
) -> Result<Made<N>, Memory>
    requires threshold { (0 < threshold) × (threshold ≤ 512) }
    requires value { HasValue owner.old.holds value.now }
    requires within { from + len ≤ size_of value.now }
    ensures value { HasValue owner.new.holds value.now }
{
    let SessionSlot {
        mut seat,
        mut stage,
    } = slot;
    let mut plan = Plan::start(pool, &mut seat, &mut stage, Need::range(), threshold)?;
    hand_range(pool, owner, value, from, len, &mut plan);
    Ok(seal(plan, seat, stage, 7))
}

/// A reply of copied bytes, if there are some that fit a staging buffer, and one is free.
pub fn make_line<N: PoolName>(
    pool: &Pool<N>,
    seat: &mut PoolSeat<N>,
    stage: &mut Stage<N>,
    bytes: &[u8],
    call: u32,
) -> Result<Parcel<N>, Memory>
    requires own { AreOwn seat.old.holds stage.old }
    requires credits { 5 ≤ seat.old.credits }
    ensures own { AreOwn seat.new.holds stage.new }
    ensures credits { seat.old.credits ≤ seat.new.credits + 1 }
{
    if stage.free() == 0 || bytes.is_empty() || bytes.len() > 512 {
        return Err(Memory);
    }
    let mut plan = Plan::start(pool, seat, stage, Need::line(), 512)?;
    plan.copy(bytes);
    Ok(plan.seal(seat, stage, call))
}
