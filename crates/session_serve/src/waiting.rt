// Calls of a session whose device runs beside it.
ghost use Rattle.std.specs.Prelude.{◌≡◌, ◌+◌, ◌≤◌, length, OnOk, OnErr};
ghost use Rattle.flake_model.specs.Resp.{judged_bytes};
ghost use Rattle.tx_ring.specs.Shown.{closed_ring, closed_view};
ghost use Rattle.session_serve.specs.Beside.{CallsAtLast, BreaksAtLast};
ghost use Rattle.session_serve.specs.Working.{IsLeft};
ghost use Rattle.device_model.specs.Devices.{CanFrame};

use crate::backoff::Backoff;
use crate::lending::{DeviceSlot, relieve};
use crate::wiring::Wiring;
use any_wire::WireCalls;
use command_exec::Shop;
use command_parts::Command;
use flake_base::Memory;
use order_book::{BookName, SessionSeat};
use pinned_pool::{Pool, PoolName, PoolSeat};
use reply_planner::Parcel;
use session_pass::{CallError, Finish, Session};
use std::sync::Wait;
use tx_descriptor::Framed;
use tx_ring::ClosedDriver;

/// What is left of a session that has ended.
#[derive(Drop)]
pub(crate) struct Remains<N: BookName, P: PoolName + Send>
where
    Parcel<P>: Framed,
{
    pub seat: PoolSeat<P>,
    pub mine: SessionSeat<N>,
    pub closed: ClosedDriver<Parcel<P>>,
}

// Replies take all room: some are gathered, or the device does so meanwhile.
fn rest<R: Wait, P: PoolName + Send, W: Drop, C: WireCalls<W>>(
    rt: &R,
    pool: &Pool<P>,
    place: &DeviceSlot<'_, P, W, C>,
    wiring: &Wiring<'_, C>,
    backoff: &mut Backoff,
)
    requires ready { (C.can_put wiring.now.calls.now × C.can_flush wiring.now.calls.now) × CanFrame wiring.now.mtu }
    requires same { place.now.wiring ≡ wiring.now }
{
    if relieve(pool, place, wiring) {
        backoff.found();
    } else {
        backoff.wait(rt);
    }
}

/// Runs a command and posts its reply. Where ring or stage is full, replies are gathered, and the call is made again.
pub(crate) fn call<R: Wait, N: BookName, P: PoolName + Send, W: Drop, C: WireCalls<W>>(
    rt: &R,
    shop: &Shop<'_, N, P>,
    session: &mut Session<N, P>,
    command: &Command,
    place: &DeviceSlot<'_, P, W, C>,
    wiring: &Wiring<'_, C>,
) -> Result<(), Memory>
    requires few { length session.old.posted ≤ judged_bytes + 1 }
    requires ready { (C.can_put wiring.now.calls.now × C.can_flush wiring.now.calls.now) × CanFrame wiring.now.mtu }
    requires same { place.now.wiring ≡ wiring.now }
    ensures posted { OnOk result (CallsAtLast P.sizes N.sizes.shards command.now session.old session.new) }
    ensures memory { OnErr result (BreaksAtLast P.sizes N.sizes.shards command.now session.old session.new) }
{
    let mut backoff = Backoff::new();
    for _ in rt.forever() {
        match session.call_untold(rt, shop, command) {
            Ok(_) => return Ok(()),
            Err(CallError::Memory) => return Err(Memory),
            Err(CallError::RingFull { .. }) => rest(rt, shop.pool, place, wiring, &mut backoff),
            Err(CallError::StageFull { .. }) => rest(rt, shop.pool, place, wiring, &mut backoff),
        }
    }
    unreachable!()
}

/// Waits until all replies are sent, gives them back, and closes ring and pass.
pub(crate) fn finish<R: Wait, N: BookName, P: PoolName + Send, W: Drop, C: WireCalls<W>>(
    rt: &R,
    shop: &Shop<'_, N, P>,
    session: Session<N, P>,
    place: &DeviceSlot<'_, P, W, C>,
    wiring: &Wiring<'_, C>,
) -> Remains<N, P>
    requires ready { (C.can_put wiring.now.calls.now × C.can_flush wiring.now.calls.now) × CanFrame wiring.now.mtu }
    requires same { place.now.wiring ≡ wiring.now }
    ensures left { IsLeft session result.seat result.mine }
    ensures ring { closed_ring result.closed ≡ session.ring }
    ensures posted { (closed_view result.closed).posted ≡ session.posted }
{
    let mut session = session;
    let mut backoff = Backoff::new();
    for _ in rt.forever() {
        match session.finish(shop) {
            Finish::Done { seat, mine, closed } => return Remains { seat, mine, closed },
            Finish::NotYet(back) => session = back,
        }
        rest(rt, shop.pool, place, wiring, &mut backoff);
    }
    unreachable!()
}
