//! A driver and a device in threads of their own.
ghost use Rattle.std.specs.Prelude.{◌≡◌, ◌≤◌};

use super::making::{SessionSlot, make_line, open_session_slot};
use super::putting::{Counted, Counting};
use device_model::{Device, Gathered};
use flake_base::Memory;
use pinned_pool::{Pool, PoolBlank, PoolName};
use reply_planner::Parcel;
use std::alloc::Global;
use std::marker::Brand;
use std::test::Fail;
use std::thread::{Threads, join};
use tx_ring::{Driver, ring};

// So many replies that tell their numbers, the last one first.
fn make_many<N: PoolName>(
    alloc: Global,
    pool: &Pool<N>,
    slot: SessionSlot<N>,
    count: u32,
) -> Result<Vec<Parcel<N>>, Memory>
    requires { count ≤ 128 }
{
    let SessionSlot {
        mut seat,
        mut stage,
    } = slot;
    let mut parcels = Vec::new(alloc);
    for turn in 0..count {
        let number = count - 1 - turn;
        let text = format!(in alloc; ":{number}\r\n")?;
        let parcel = make_line(pool, &mut seat, &mut stage, text.as_bytes(), number)?;
        parcels.push(parcel)?;
    }
    Ok(parcels)
}

// Posts replies, the last of the list first, and reaps them. The answer is how many came back.
fn drive<N: PoolName + Send>(mut driver: Driver<Parcel<N>>, mut parcels: Vec<Parcel<N>>) -> u32 {
    let mut back = 0u32;
    for _ in 0..1u64 << 40 {
        if driver.room() > 0 {
            if let Some(parcel) = parcels.pop() {
                parcel.is_parcel();
                if driver.post(parcel).is_err() {
                    return 0;
                }
            }
        }
        if driver.reap().is_some() {
            back = back.saturating_add(1);
        }
        if parcels.is_empty() && driver.pending() == 0 {
            break;
        }
    }
    if driver.close().is_ok() { back } else { 0 }
}

// Gathers until the ring is closed.
fn gather_all<N: PoolName + Send>(
    pool: &Pool<N>,
    mut device: Device<N>,
    mut wire: Counted,
) -> Counted {
    for _ in 0..1u64 << 40 {
        let (after, found) = device.gather(pool, wire, &Counting);
        wire = after;
        if found == Gathered::Closed {
            break;
        }
    }
    wire
}

fn work_named<N: PoolName + Send + Sync, R: Threads>(
    rt: &R,
    alloc: Global,
    blank: PoolBlank,
    count: u32,
    wire: Counted,
) -> Result<(u32, Counted), Memory>
    requires name { (blank.table ≡ N.table) × (blank.sizes ≡ N.sizes) }
    requires credits { 1000 ≤ blank.sizes.credits }
    requires count { count ≤ 128 }
{
    let (pool, mut seat) = blank.name::<N>();
    let slot = open_session_slot(alloc, &pool, &mut seat)?;
    let parcels = make_many(alloc, &pool, slot, count)?;
    let Ok((driver, end)) = ring::<Parcel<N>>(alloc, 8) else {
        return Err(Memory);
    };
    let device = Device::open(end);
    let shared = &pool;
    let (back, wire) = join(
        rt,
        move || drive(driver, parcels),
        move || gather_all(shared, device, wire),
    );
    Ok((back, wire))
}

// The only call of `work_named`. It has no clauses.
fn work<R: Threads>(rt: &R, alloc: Global, wire: Counted) -> Result<(u32, Counted), Memory> {
    let Ok(blank) = PoolBlank::open(alloc, 128, 0, 1000) else {
        return Err(Memory);
    };
    work_named::<Brand, R>(rt, alloc, blank, 128, wire)
}

#[test]
fn replies_go_between_threads(rt: HostRuntime) -> Result<(), Fail> {
    let alloc = rt.alloc();
    let mut text = Vec::new(alloc);
    for number in 0..128 {
        text.extend_from_slice(format!(in alloc; ":{number}\r\n")?.as_bytes())?;
    }
    let (back, wire) = work(&rt, alloc, Counted::new(alloc, 1000, None, false)?)?;
    assert!(rt; back == 128 && wire.wire.sent() == text.as_slice());
    Ok(())
}
