//! Replies on their way, posted and gathered.
ghost use Rattle.std.specs.Prelude.{OnOk};
ghost use Rattle.tx_ring.specs.Changes.{IsPosted};
ghost use Rattle.tx_ring.specs.Shown.{driver_view};

use any_wire::Calls;
use device_model::{Device, Gathered};
use flake_base::{Memory, Wire};
use pinned_pool::{Pool, PoolName};
use reply_planner::Parcel;
use tx_ring::Driver;

fn put(mut wire: Box<dyn Wire>, piece: &[u8]) -> (Box<dyn Wire>, bool) {
    if piece.is_empty() {
        return (wire, false);
    }
    let failed = wire.put(piece).is_err();
    (wire, failed)
}

fn flush(mut wire: Box<dyn Wire>) -> (Box<dyn Wire>, bool) {
    let failed = wire.flush().is_err();
    (wire, failed)
}

/// Posts a reply, and lets the device put it on the wire. The answer is the wire, and how many bytes were sent.
pub fn send<N: PoolName + Send>(
    pool: &Pool<N>,
    driver: &mut Driver<Parcel<N>>,
    device: &mut Device<N>,
    reply: Parcel<N>,
    wire: Box<dyn Wire>,
) -> Result<(Box<dyn Wire>, u64), Memory>
    ensures { OnOk result (IsPosted reply (driver_view driver.old) (driver_view driver.new)) }
{
    reply.is_parcel();
    let Ok(()) = driver.post(reply) else {
        return Err(Memory);
    };
    let (wire, found) = device.gather(
        pool,
        wire,
        &Calls {
            put: |wire: Box<dyn Wire>, piece: &[u8]| put(wire, piece),
            flush: |wire: Box<dyn Wire>| flush(wire),
        },
    );
    match found {
        Gathered::Sent { bytes, .. } => Ok((wire, bytes)),
        _ => Ok((wire, 0)),
    }
}
