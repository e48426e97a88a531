// A device with its wire.
ghost use Rattle.std.specs.Prelude.{◌≡◌, true, IfOk, IfErr};
ghost use Rattle.tx_ring.specs.Shown.{device_ring, completed, ended};
ghost use Rattle.any_wire.specs.Sends.{Flushes};
ghost use Rattle.device_model.specs.Devices.{CanFrame, IfIdle, IsFound};
ghost use Rattle.session_serve.specs.Beside.{ForwardsMore, ForwardsOut};

use crate::backoff::Backoff;
use crate::counting::{counted, whole_bytes};
use crate::gather::gather_next;
use crate::lending::DeviceSlot;
use crate::start_barrier::StartBarrier;
use crate::wiring::Wiring;
use any_wire::WireCalls;
use device_model::{Device, Gathered};
use pinned_pool::{Pool, PoolName};
use reply_planner::Parcel;
use std::sync::Wait;
use tx_descriptor::Framed;

// So many replies a session gathers before it looks again whether there is room.
const MOST_AT_ONCE: u32 = 64;

/// Where a session's replies go out.
#[derive(Drop)]
pub(crate) struct DeviceSide<P: PoolName + Send, W>
where
    Parcel<P>: Framed,
{
    pub device: Device<P>,
    pub wire: W,
    /// So many bytes were put in whole replies; a full count stands still.
    pub sent: u64,
    /// The session has gathered replies itself since its device last looked.
    pub helped: bool,
}

/// What a round of gathers found.
#[derive(Clone, Copy, PartialEq, Eq, Debug)]
pub(crate) enum Round {
    /// No reply was posted.
    Idle,
    /// Replies were posted, and there may be more.
    Busy,
    /// The ring is closed, and all its replies are gathered.
    Closed,
}

impl<P: PoolName + Send, W: Drop> DeviceSide<P, W> {
    /// Puts each reply that is posted, until the ring is closed. The wire is flushed before each wait and at the end.
    pub fn forward_all<R: Wait, C: WireCalls<W>>(
        self,
        rt: &R,
        pool: &Pool<P>,
        wiring: &Wiring<'_, C>,
    ) -> Self
        requires { (C.can_put wiring.now.calls.now × C.can_flush wiring.now.calls.now) × CanFrame wiring.now.mtu }
        ensures ring { device_ring result.device.end ≡ device_ring self.device.end }
        ensures ended { ended result.device.end ≡ true }
        ensures out { ForwardsOut wiring.now.mtu (C.put_may wiring.now.calls.now) (C.flush_may wiring.now.calls.now)
            self.device.failed result.device.failed (completed self.device.end) (completed result.device.end)
            self.sent result.sent self.wire result.wire }
    {
        let mut device_side = self;
        let mut backoff = Backoff::new();
        for _ in rt.forever() {
            let (after, round) = device_side.round(pool, wiring);
            device_side = after;
            match round {
                Round::Idle => backoff.wait(rt),
                Round::Busy => backoff.found(),
                Round::Closed => return device_side,
            }
        }
        unreachable!()
    }

    /// Gathers some of the replies that are posted. Where none is left the wire is flushed.
    pub fn round<C: WireCalls<W>>(self, pool: &Pool<P>, wiring: &Wiring<'_, C>) -> (Self, Round)
        requires { (C.can_put wiring.now.calls.now × C.can_flush wiring.now.calls.now) × CanFrame wiring.now.mtu }
        ensures ring { device_ring result.0.device.end ≡ device_ring self.device.end }
        ensures more { ForwardsMore wiring.now.mtu (C.put_may wiring.now.calls.now) (C.flush_may wiring.now.calls.now)
            self.device.failed result.0.device.failed (completed self.device.end) (completed result.0.device.end)
            self.sent result.0.sent self.wire result.0.wire }
        ensures closed { result.1 ≡ Round.Closed → (ended result.0.device.end ≡ true)
            × ForwardsOut wiring.now.mtu (C.put_may wiring.now.calls.now) (C.flush_may wiring.now.calls.now)
            self.device.failed result.0.device.failed (completed self.device.end) (completed result.0.device.end)
            self.sent result.0.sent self.wire result.0.wire }
    {
        let DeviceSide {
            mut device,
            mut wire,
            mut sent,
            helped,
        } = self;
        let mut round = Round::Idle;
        for _ in 0..MOST_AT_ONCE {
            let (after, found) = gathered(&mut device, wire, &mut sent, pool, wiring);
            wire = after;
            match found {
                Gathered::Sent { .. } | Gathered::Dropped { .. } => round = Round::Busy,
                Gathered::Empty => break,
                Gathered::Closed => {
                    let device_side = DeviceSide {
                        device,
                        wire,
                        sent,
                        helped,
                    };
                    return (device_side, Round::Closed);
                }
            }
        }
        let device_side = DeviceSide {
            device,
            wire,
            sent,
            helped,
        };
        (device_side, round)
    }

    /// Beside its session: between rounds of gathers the device's side lies in the place, until the ring is closed.
    /// Nothing is
    /// done where the session has left.
    pub fn beside<R: Wait, C: WireCalls<W>>(
        self,
        rt: &R,
        pool: &Pool<P>,
        place: &DeviceSlot<'_, P, W, C>,
        wiring: &Wiring<'_, C>,
        start_barrier: &StartBarrier,
    ) -> Result<Self, Self>
        requires ready { (C.can_put wiring.now.calls.now × C.can_flush wiring.now.calls.now) × CanFrame wiring.now.mtu }
        requires start { (place.now.device_side ≡ self) × (place.now.wiring ≡ wiring.now) }
        ensures ring { IfOk result (λ o. device_ring o.device.end ≡ device_ring self.device.end) }
        ensures ended { IfOk result (λ o. ended o.device.end ≡ true) }
        ensures out { IfOk result (λ o. ForwardsOut wiring.now.mtu (C.put_may wiring.now.calls.now)
            (C.flush_may wiring.now.calls.now) self.device.failed o.device.failed (completed self.device.end)
            (completed o.device.end) self.sent o.sent self.wire o.wire) }
        ensures back { IfErr result (λ o. o ≡ self) }
    {
        let Some(loan) = place.first() else {
            return Err(self);
        };
        if !start_barrier.come() {
            return Err(self);
        }
        loan.give(self);
        Ok(tended(rt, pool, place, wiring))
    }
}

// Gathers the next reply and puts it. Where no reply is posted the wire is flushed.
fn gathered<P: PoolName + Send, W: Drop, C: WireCalls<W>>(
    device: &mut Device<P>,
    wire: W,
    sent: &mut u64,
    pool: &Pool<P>,
    wiring: &Wiring<'_, C>,
) -> (W, Gathered)
    requires ready { (C.can_put wiring.now.calls.now × C.can_flush wiring.now.calls.now) × CanFrame wiring.now.mtu }
    ensures ring { device_ring device.new.end ≡ device_ring device.old.end }
    ensures found { IsFound result.1 device.new.failed device.old.end device.new.end }
    ensures more { ForwardsMore wiring.now.mtu (C.put_may wiring.now.calls.now) (C.flush_may wiring.now.calls.now)
        device.old.failed device.new.failed (completed device.old.end) (completed device.new.end) sent.old sent.new
        wire result.0 }
    ensures flushed { IfIdle result.1
        (Flushes (C.flush_may wiring.now.calls.now) device.old.failed device.new.failed wire result.0) }
{
    let (wire, found) = gather_next(device, pool, wire, wiring.mtu, wiring);
    *sent = counted(*sent, whole_bytes(found));
    (wire, found)
}

// Gathers a round again and again, until the ring is closed. What a session gathers itself is left to it, since replies
// that stay on one processor cost less.
fn tended<R: Wait, P: PoolName + Send, W: Drop, C: WireCalls<W>>(
    rt: &R,
    pool: &Pool<P>,
    place: &DeviceSlot<'_, P, W, C>,
    wiring: &Wiring<'_, C>,
) -> DeviceSide<P, W>
    requires ready { (C.can_put wiring.now.calls.now × C.can_flush wiring.now.calls.now) × CanFrame wiring.now.mtu }
    requires same { place.now.wiring ≡ wiring.now }
    ensures ring { device_ring result.device.end ≡ device_ring place.now.device_side.device.end }
    ensures ended { ended result.device.end ≡ true }
    ensures out { ForwardsOut wiring.now.mtu (C.put_may wiring.now.calls.now) (C.flush_may wiring.now.calls.now)
        place.now.device_side.device.failed result.device.failed (completed place.now.device_side.device.end)
        (completed result.device.end) place.now.device_side.sent result.sent place.now.device_side.wire result.wire }
{
    let mut backoff = Backoff::long();
    for _ in rt.forever() {
        if let Some((mut device_side, loan)) = place.take() {
            if device_side.helped {
                device_side.helped = false;
                loan.give(device_side);
            } else {
                let (device_side, round) = device_side.round(pool, wiring);
                match round {
                    Round::Idle => {}
                    Round::Busy => backoff.found(),
                    Round::Closed => return device_side,
                }
                loan.give(device_side);
            }
        }
        backoff.wait(rt);
    }
    unreachable!()
}
