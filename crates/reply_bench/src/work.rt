//! Replies over and over, each planned and given back.
ghost use Rattle.std.specs.Prelude.{◌≡◌, ◌+◌, ◌≤◌, length, IfOk, OnOk};
ghost use Rattle.flake_base.specs.Limits.{value_limit};
ghost use Rattle.frag_value.specs.Values.{HasValue};
ghost use Rattle.reply_bench.specs.Desks.{IsDesk, HasLent, most_credits};

use crate::asked::Asked;
use crate::planning::plan_reply;
use crate::sending::send;
use device_model::Device;
use flake_base::{Memory, Wire};
use frag_value::{Value, write};
use pinned_pool::{Pool, PoolBlank, PoolName, PoolSeat};
use reply_planner::{Parcel, Stage, give_back};
use std::alloc::Global;
use std::marker::Brand;
use tx_ring::{Driver, ring};

/// How long each reply is, and how many bytes of all were sent.
#[derive(Clone, Copy)]
pub struct Done {
    pub bytes: u64,
    pub sent: u64,
}

// Takes a reply back.
fn take_back<N: PoolName>(
    reply: Parcel<N>,
    pool: &Pool<N>,
    seat: &mut PoolSeat<N>,
    stage: &mut Stage<N>,
)
    requires { HasLent reply stage.old seat.old }
    ensures { IsDesk stage.new seat.new }
{
    give_back(reply, pool, seat, stage);
}

// How long one reply is.
fn length_of<N: PoolName>(
    pool: &Pool<N>,
    seat: &mut PoolSeat<N>,
    stage: &mut Stage<N>,
    owner: &mut PoolSeat<N>,
    value: &Value<N>,
    asked: Asked<'_>,
) -> Result<u64, Memory>
    requires desk { IsDesk stage.old seat.old }
    requires value { HasValue owner.old.holds value.now }
    ensures desk { OnOk result (IsDesk stage.new seat.new) }
    ensures value { OnOk result (HasValue owner.new.holds value.now) }
{
    let reply = plan_reply(pool, seat, stage, owner, value, asked)?;
    let bytes = reply.len();
    take_back(reply, pool, seat, stage);
    Ok(bytes)
}

// Plans replies, one after another, and gives each back.
fn plan_often<N: PoolName>(
    pool: &Pool<N>,
    seat: &mut PoolSeat<N>,
    stage: &mut Stage<N>,
    owner: &mut PoolSeat<N>,
    value: &Value<N>,
    asked: Asked<'_>,
) -> Result<(), Memory>
    requires desk { IsDesk stage.old seat.old }
    requires value { HasValue owner.old.holds value.now }
{
    for _ in 0..asked.replies {
        let reply = plan_reply(pool, seat, stage, owner, value, asked)?;
        take_back(reply, pool, seat, stage);
    }
    Ok(())
}

// Sends each too. The answer is how many bytes were sent.
fn send_often<N: PoolName + Send>(
    alloc: Global,
    pool: &Pool<N>,
    seat: &mut PoolSeat<N>,
    stage: &mut Stage<N>,
    owner: &mut PoolSeat<N>,
    value: &Value<N>,
    asked: Asked<'_>,
    wire: Box<dyn Wire>,
) -> Result<u64, Memory>
    requires desk { IsDesk stage.old seat.old }
    requires value { HasValue owner.old.holds value.now }
{
    let Ok((mut driver, end)) = ring::<Parcel<N>>(alloc, 1160) else {
        return Err(Memory);
    };
    let mut device = Device::open(end);
    let mut wire = wire;
    let mut sent = 0u64;
    for _ in 0..asked.replies {
        let reply = plan_reply(pool, seat, stage, owner, value, asked)?;
        let (after, bytes) = send(pool, &mut driver, &mut device, reply, wire)?;
        wire = after;
        sent = sent.saturating_add(bytes);
        let Some(back) = driver.reap() else {
            return Err(Memory);
        };
        take_back(back, pool, seat, stage);
    }
    Ok(sent)
}

fn work_named<N: PoolName + Send>(
    alloc: Global,
    blank: PoolBlank,
    bytes: &[u8],
    asked: Asked<'_>,
    wire: Option<Box<dyn Wire>>,
) -> Result<Done, Memory>
    requires name { (blank.table ≡ N.table) × (blank.sizes ≡ N.sizes) }
    requires credits { most_credits + 1 ≤ blank.sizes.credits }
    requires few { length bytes.now ≤ value_limit }
{
    let (pool, mut seat) = blank.name::<N>();
    let mut owner = pool.split(&mut seat, (), 1);
    let Ok(mut stage) = Stage::open(alloc, &pool, &mut seat) else {
        return Err(Memory);
    };
    let Ok(value) = write(alloc, &pool, &mut owner, bytes) else {
        return Err(Memory);
    };
    let bytes = length_of(&pool, &mut seat, &mut stage, &mut owner, &value, asked)?;
    let Some(wire) = wire else {
        plan_often(&pool, &mut seat, &mut stage, &mut owner, &value, asked)?;
        return Ok(Done { bytes, sent: 0 });
    };
    let sent = send_often(
        alloc, &pool, &mut seat, &mut stage, &mut owner, &value, asked, wire,
    )?;
    Ok(Done { bytes, sent })
}

/// Plans replies of values with these bytes, in a pool that has room for one value and a stage, and sends them where
/// there is a wire.
pub fn work_in_a_pool(
    alloc: Global,
    bytes: &[u8],
    asked: Asked<'_>,
    wire: Option<Box<dyn Wire>>,
) -> Result<Done, Memory>
    requires few { length bytes.now ≤ value_limit }
{
    let Ok(blank) = PoolBlank::open(alloc, 129, 16, 1300) else {
        return Err(Memory);
    };
    work_named::<Brand>(alloc, blank, bytes, asked, wire)
}
