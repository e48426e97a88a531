//! Cases, one after another, on one ring over one pool.
ghost use Rattle.std.specs.Prelude.{◌≡◌, ◌+◌, ◌≤◌, OnOk};
ghost use Rattle.tx_ring.specs.Changes.{IsPosted};
ghost use Rattle.tx_ring.specs.Shown.{driver_view, posted, reaped, IsResting};
ghost use Rattle.card_cases.specs.Desks.{IsDesk, most_credits};

use crate::case::{Case, value_of};
use crate::planning::{plan_reply, take_back};
use crate::showing::show_job;
use flake_base::Memory;
use frag_value::{release, write};
use pinned_pool::{Pool, PoolBlank, PoolName, PoolSeat};
use reply_planner::{Parcel, Stage};
use std::alloc::Global;
use std::marker::Brand;
use tx_ring::{DeviceEnd, Driver, Next, ring};

/// So few descriptors that the ring goes round several times, and as many as a reply of 65 segments takes.
const RING: u32 = 72;

/// So many small buffers that the addresses of large ones have four bytes that differ.
const SMALL: u32 = 40_000;

const LARGE: u32 = 16;

const CREDITS: u64 = 1300;

// Posts a reply, and takes it out of the ring as a card does. The answer is what the ring had of it.
fn post_and_show<N: PoolName + Send>(
    alloc: Global,
    pool: &Pool<N>,
    driver: &mut Driver<Parcel<N>>,
    end: &mut DeviceEnd<Parcel<N>>,
    reply: Parcel<N>,
) -> Result<String, Memory>
    requires rest { IsResting end.old }
    ensures posted { OnOk result (IsPosted reply (driver_view driver.old) (driver_view driver.new)) }
    ensures rest { OnOk result (IsResting end.new) }
{
    reply.is_parcel();
    let Ok(()) = driver.post(reply) else {
        return Err(Memory);
    };
    let Next::Frame(mut job) = end.next() else {
        return Err(Memory);
    };
    let text = show_job(alloc, pool, &mut job)?;
    end.complete(job);
    Ok(text)
}

// Stores the value, plans the reply, lets go of the value, posts the reply and takes it back.
fn work_case<N: PoolName + Send>(
    alloc: Global,
    pool: &Pool<N>,
    seat: &mut PoolSeat<N>,
    stage: &mut Stage<N>,
    owner: &mut PoolSeat<N>,
    driver: &mut Driver<Parcel<N>>,
    end: &mut DeviceEnd<Parcel<N>>,
    case: Case,
) -> Result<String, Memory>
    requires desk { IsDesk stage.old seat.old }
    requires none { posted driver.old ≡ reaped driver.old }
    requires rest { IsResting end.old }
    ensures desk { OnOk result (IsDesk stage.new seat.new) }
    ensures none { OnOk result (posted driver.new ≡ reaped driver.new) }
    ensures rest { OnOk result (IsResting end.new) }
{
    let bytes = value_of(alloc, case)?;
    let Ok(value) = write(alloc, pool, owner, bytes.as_slice()) else {
        return Err(Memory);
    };
    let reply = plan_reply(pool, seat, stage, owner, &value, case)?;
    release(pool, owner, value);
    let text = post_and_show(alloc, pool, driver, end, reply)?;
    let Some(back) = driver.reap() else {
        return Err(Memory);
    };
    take_back(back, pool, seat, stage);
    Ok(text)
}

fn work_named<N: PoolName + Send>(
    alloc: Global,
    blank: PoolBlank,
    cases: &[Case],
) -> Result<String, Memory>
    requires name { (blank.table ≡ N.table) × (blank.sizes ≡ N.sizes) }
    requires credits { most_credits + 1 ≤ blank.sizes.credits }
{
    let (pool, mut seat) = blank.name::<N>();
    let mut owner = pool.split(&mut seat, (), 1);
    let Ok(mut stage) = Stage::open(alloc, &pool, &mut seat) else {
        return Err(Memory);
    };
    let Ok((mut driver, mut end)) = ring::<Parcel<N>>(alloc, RING) else {
        return Err(Memory);
    };
    let mut text = String::new(alloc);
    for case in cases {
        let Case {
            keys,
            length,
            threshold,
        } = *case;
        let head = format!(in alloc; "case {keys} {length} {threshold}\n")?;
        text.push_str(head.as_str())?;
        let shown = work_case(
            alloc,
            &pool,
            &mut seat,
            &mut stage,
            &mut owner,
            &mut driver,
            &mut end,
            *case,
        )?;
        text.push_str(shown.as_str())?;
    }
    Ok(text)
}

/// Works through the cases in a pool that has room for one value and a stage. The answer is the text of all.
pub fn work_in_a_pool(alloc: Global, cases: &[Case]) -> Result<String, Memory> {
    let Ok(blank) = PoolBlank::open(alloc, SMALL, LARGE, CREDITS) else {
        return Err(Memory);
    };
    work_named::<Brand>(alloc, blank, cases)
}
