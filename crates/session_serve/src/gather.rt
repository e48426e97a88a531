// The next reply onto the wire.
ghost use Rattle.std.specs.Prelude.{◌≡◌};
ghost use Rattle.tx_ring.specs.Shown.{device_ring, completed};
ghost use Rattle.any_wire.specs.Sends.{Flushes};
ghost use Rattle.device_model.specs.Devices.{CanFrame, ForwardsAs, IfIdle, IfTaken, IsFound, PutsAs};

use any_wire::WireCalls;
use device_model::{Device, Gathered};
use pinned_pool::{Pool, PoolName};

/// Gathers the next reply and puts its text, or, where there is a bound, its frames of at most so many bytes. Where no
/// reply is posted the wire is flushed.
#[inline(always)]
pub(crate) fn gather_next<P: PoolName + Send, W: Drop, C: WireCalls<W>>(
    device: &mut Device<P>,
    pool: &Pool<P>,
    wire: W,
    mtu: Option<u16>,
    calls: &C,
) -> (W, Gathered)
    requires calls { C.can_put calls.now × C.can_flush calls.now }
    requires mtu { CanFrame mtu }
    ensures ring { device_ring device.new.end ≡ device_ring device.old.end }
    ensures found { IsFound result.1 device.new.failed device.old.end device.new.end }
    ensures put { IfTaken result.1 (PutsAs mtu (C.put_may calls.now) device.old.failed device.new.failed
        (completed device.old.end) (completed device.new.end) wire result.0) }
    ensures flushed { IfIdle result.1 (Flushes (C.flush_may calls.now) device.old.failed device.new.failed
        wire result.0) }
    ensures forwards { ForwardsAs mtu (C.put_may calls.now) (C.flush_may calls.now)
        device.old.failed device.new.failed (completed device.old.end) (completed device.new.end) wire result.0 }
{
    match mtu {
        None => device.gather(pool, wire, calls),
        Some(mtu) => device.gather_framed(pool, wire, mtu, calls),
    }
}
