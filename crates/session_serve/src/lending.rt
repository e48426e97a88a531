// Where the device's side of a session lies, so that either side can take it.
ghost use Rattle.std.specs.Prelude.{◌≡◌};
ghost use Rattle.device_model.specs.Devices.{CanFrame};

use crate::device_side::{DeviceSide, Round};
use crate::wiring::Wiring;
use any_wire::WireCalls;
use handover_slot::{Fits, HandoverSlot};
use pinned_pool::{Pool, PoolName};

/// The device's side as it was before the first command, and how its replies come onto the wire.
pub(crate) struct Start<O, Q> {
    pub device_side: O,
    pub wiring: Q,
}

impl<'a, P: PoolName + Send, W, C: WireCalls<W>> Fits<Start<DeviceSide<P, W>, Wiring<'a, C>>>
    for DeviceSide<P, W> {
    ghost use Rattle.std.specs.Prelude.{◌≡◌};
    ghost use Rattle.tx_ring.specs.Shown.{device_ring, completed};
    ghost use Rattle.session_serve.specs.Beside.{ForwardsMore};

    ghost fits = { λ start now. (device_ring now.device.end ≡ device_ring start.device_side.device.end)
        × ForwardsMore start.wiring.mtu (C.put_may start.wiring.calls.now) (C.flush_may start.wiring.calls.now)
        start.device_side.device.failed now.device.failed (completed start.device_side.device.end)
        (completed now.device.end) start.device_side.sent now.sent start.device_side.wire now.wire };
}

pub(crate) type DeviceSlot<'a, P, W, C> = HandoverSlot<
    DeviceSide<P, W>,
    Start<DeviceSide<P, W>, Wiring<'a, C>>,
>;

/// A session gathers some of its replies itself, unless its device is at it. Answers whether one was posted.
pub(crate) fn relieve<P: PoolName + Send, W: Drop, C: WireCalls<W>>(
    pool: &Pool<P>,
    place: &DeviceSlot<'_, P, W, C>,
    wiring: &Wiring<'_, C>,
) -> bool
    requires ready { (C.can_put wiring.now.calls.now × C.can_flush wiring.now.calls.now) × CanFrame wiring.now.mtu }
    requires same { place.now.wiring ≡ wiring.now }
{
    match place.take() {
        None => false,
        Some((device_side, loan)) => {
            let (mut device_side, round) = device_side.round(pool, wiring);
            device_side.helped = true;
            loan.give(device_side);
            round == Round::Busy
        }
    }
}
