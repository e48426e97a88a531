// A session and its device beside each other.
ghost use Rattle.std.specs.Prelude.{◌≡◌, ◌≢◌, [], true, false, None, IfOk, IfErr};
ghost use Rattle.command_pump.specs.Pump.{EndFaults, ended_at};
ghost use Rattle.tx_ring.specs.Shown.{closed_ring, closed_view, device_ring, completed, ended};
ghost use Rattle.device_model.specs.Devices.{CanFrame};
ghost use Rattle.session_serve.specs.Beside.{ForwardsOut, RanToTheEnd};
ghost use Rattle.session_serve.specs.Dumps.{CanTake, DumpCame};
ghost use Rattle.session_serve.specs.Served.{IsServed, HasServed};
ghost use Rattle.session_pass.specs.Fresh.{IsFresh};

use crate::device_side::DeviceSide;
use crate::lending::{DeviceSlot, Start};
use crate::link::{Link, ServedAccount};
use crate::serve::serve_in_turns;
use crate::session_side::{Ended, SessionSide};
use crate::start_barrier::StartBarrier;
use crate::waiting::Remains;
use crate::wiring::Wiring;
use any_wire::WireCalls;
use command_exec::Shop;
use flake_base::{End, SessionEnd, Source};
use handover_slot::HandoverSlot;
use order_book::BookName;
use pinned_pool::PoolName;
use session_pass::{Gate, laws};
use std::alloc::{AllocError, Global};
use std::sync::Wait;
use std::thread;
use std::thread::Threads;

/// Runs the commands of a source in order, each behind the gate, to the source's end or until memory is wanting. The
/// session's device puts the replies meanwhile, on a thread of its own; where none can be started for it, each reply is
/// put before the next command is read. Last the wire is flushed. After a failed put or flush nothing more is put, and
/// all commands are still run. The dump that the session is asked for is taken behind the gate of its call, or last.
/// Where the link has a bound, a reply is put as its frames of at most so many bytes.
pub fn serve_beside<
    R: Threads + Wait + Sync,
    N: BookName,
    P: PoolName + Send + Sync,
    S: Source + Drop,
    G: Gate,
    W: Send + Drop,
    C: WireCalls<W> + Sync,
>(
    rt: &R,
    alloc: Global,
    shop: &Shop<'_, N, P>,
    link: Link<N, P, S>,
    gate: &G,
    wire: W,
    calls: &C,
) -> (W, ServedAccount<N, P, S>)
    requires calls { C.can_put calls.now × C.can_flush calls.now }
    requires fresh { IsFresh P.sizes link.session link.pump }
    requires ring { device_ring link.device.end ≡ link.session.ring }
    requires unfailed { link.device.failed ≡ false }
    requires plan { CanTake P.sizes N.sizes.shards link.dump.plan }
    requires untried { link.dump.taken ≡ None }
    requires mtu { CanFrame link.mtu }
    ensures served { IsServed link.mtu (C.put_may calls.now) (C.flush_may calls.now) P.sizes
        N.sizes.shards link.session result.1.pump.given result.1.pump.ended result.1.end result.1.sent
        result.1.mine result.1.seat wire result.0 }
    ensures origin { result.1.pump.origin ≡ link.pump.origin }
    ensures reads { EndFaults result.1.end.end link.pump.faults result.1.pump.faults }
    ensures to_the_end { result.1.end.end ≢ End.Left }
    ensures credits { result.1.seat.credits ≡ link.session.opened.credits }
    ensures dump { DumpCame N.sizes.shards link.dump.plan result.1.dump link.session.pass.list result.1.mine }
{
    let mut link = link;
    laws::both_ends(&mut link.session, &mut link.device);
    let Link {
        session,
        pump,
        device,
        dump,
        mtu,
    } = link;
    let session_side = SessionSide {
        session,
        pump,
        dump,
    };
    let device_side = DeviceSide {
        device,
        wire,
        sent: 0,
        helped: false,
    };
    let wiring = Wiring { calls, mtu };
    serve_sides(rt, alloc, shop, session_side, gate, device_side, &wiring)
}

// The two sides run beside each other, or where that can't be they take turns.
fn serve_sides<
    R: Threads + Wait + Sync,
    N: BookName,
    P: PoolName + Send + Sync,
    S: Source + Drop,
    G: Gate,
    W: Send + Drop,
    C: WireCalls<W> + Sync,
>(
    rt: &R,
    alloc: Global,
    shop: &Shop<'_, N, P>,
    session_side: SessionSide<N, P, S>,
    gate: &G,
    device_side: DeviceSide<P, W>,
    wiring: &Wiring<'_, C>,
) -> (W, ServedAccount<N, P, S>)
    requires ready { (C.can_put wiring.now.calls.now × C.can_flush wiring.now.calls.now) × CanFrame wiring.now.mtu }
    requires fresh { IsFresh P.sizes session_side.session session_side.pump }
    requires ring { device_ring device_side.device.end ≡ session_side.session.ring }
    requires unfailed { device_side.device.failed ≡ false }
    requires plan { CanTake P.sizes N.sizes.shards session_side.dump.plan }
    requires untried { session_side.dump.taken ≡ None }
    requires none { (completed device_side.device.end ≡ []) × (device_side.sent ≡ 0) }
    ensures { HasServed wiring.now.mtu (C.put_may wiring.now.calls.now) (C.flush_may wiring.now.calls.now)
        P.sizes N.sizes.shards session_side.session session_side.pump
        session_side.dump.plan device_side.wire result.1.end result.1.sent result.1.mine result.1.seat result.1.pump
        result.1.dump result.0 }
{
    let (went, came) = both_sides(rt, alloc, shop, session_side, gate, device_side, wiring);
    match came {
        Ok(ended) => match went {
            Ok(device_side) => settled(ended, device_side),
            Err(device_side) => {
                let device_side = device_side.forward_all(rt, shop.pool, wiring);
                settled(ended, device_side)
            }
        },
        Err(mut session_side) => match went {
            Ok(mut device_side) => {
                // The device has found the ring closed, so this can't be.
                laws::both_ends(&mut session_side.session, &mut device_side.device);
                unreachable!()
            }
            Err(device_side) => take_turns(rt, shop, session_side, gate, device_side, wiring),
        },
    }
}

// Both run until the session has ended and its device has found the ring closed; or neither begins. The device's side
// lies
// between them, for either to take.
fn both_sides<
    R: Threads + Wait + Sync,
    N: BookName,
    P: PoolName + Send + Sync,
    S: Source + Drop,
    G: Gate,
    W: Send + Drop,
    C: WireCalls<W> + Sync,
>(
    rt: &R,
    alloc: Global,
    shop: &Shop<'_, N, P>,
    session_side: SessionSide<N, P, S>,
    gate: &G,
    device_side: DeviceSide<P, W>,
    wiring: &Wiring<'_, C>,
) -> (
    Result<DeviceSide<P, W>, DeviceSide<P, W>>,
    Result<Ended<N, P, S>, SessionSide<N, P, S>>,
)
    requires ready { (C.can_put wiring.now.calls.now × C.can_flush wiring.now.calls.now) × CanFrame wiring.now.mtu }
    requires fresh { IsFresh P.sizes session_side.session session_side.pump }
    requires plan { CanTake P.sizes N.sizes.shards session_side.dump.plan }
    requires untried { session_side.dump.taken ≡ None }
    ensures out { IfOk result.0 (λ o. (device_ring o.device.end ≡ device_ring device_side.device.end)
        × (ended o.device.end ≡ true) × ForwardsOut wiring.now.mtu (C.put_may wiring.now.calls.now)
        (C.flush_may wiring.now.calls.now) device_side.device.failed o.device.failed
        (completed device_side.device.end) (completed o.device.end) device_side.sent o.sent device_side.wire o.wire) }
    ensures idle { IfErr result.0 (λ o. o ≡ device_side) }
    ensures ran { IfOk result.1
        (λ e. RanToTheEnd P.sizes N.sizes.shards session_side.session session_side.pump session_side.dump.plan e.end
        e.replies e.remains.seat e.remains.mine e.pump e.remains.closed e.dump) }
    ensures back { IfErr result.1 (λ i. i ≡ session_side) }
{
    let start = Start {
        device_side,
        wiring: Wiring {
            calls: wiring.calls,
            mtu: wiring.mtu,
        },
    };
    let made: Result<DeviceSlot<'_, P, W, C>, AllocError> = HandoverSlot::new(alloc, &start);
    let Start {
        device_side,
        wiring: _,
    } = start;
    match made {
        Ok(place) => together(
            rt,
            shop,
            session_side,
            gate,
            device_side,
            &place,
            wiring,
            &StartBarrier::new(),
        ),
        Err(AllocError) => (Err(device_side), Err(session_side)),
    }
}

// The same over a place that is new.
fn together<
    R: Threads + Wait + Sync,
    N: BookName,
    P: PoolName + Send + Sync,
    S: Source + Drop,
    G: Gate,
    W: Send + Drop,
    C: WireCalls<W> + Sync,
>(
    rt: &R,
    shop: &Shop<'_, N, P>,
    session_side: SessionSide<N, P, S>,
    gate: &G,
    device_side: DeviceSide<P, W>,
    place: &DeviceSlot<'_, P, W, C>,
    wiring: &Wiring<'_, C>,
    start_barrier: &StartBarrier,
) -> (
    Result<DeviceSide<P, W>, DeviceSide<P, W>>,
    Result<Ended<N, P, S>, SessionSide<N, P, S>>,
)
    requires ready { (C.can_put wiring.now.calls.now × C.can_flush wiring.now.calls.now) × CanFrame wiring.now.mtu }
    requires fresh { IsFresh P.sizes session_side.session session_side.pump }
    requires plan { CanTake P.sizes N.sizes.shards session_side.dump.plan }
    requires untried { session_side.dump.taken ≡ None }
    requires start { (place.now.device_side ≡ device_side) × (place.now.wiring ≡ wiring.now) }
    ensures out { IfOk result.0 (λ o. (device_ring o.device.end ≡ device_ring device_side.device.end)
        × (ended o.device.end ≡ true) × ForwardsOut wiring.now.mtu (C.put_may wiring.now.calls.now)
        (C.flush_may wiring.now.calls.now) device_side.device.failed o.device.failed
        (completed device_side.device.end) (completed o.device.end) device_side.sent o.sent device_side.wire o.wire) }
    ensures idle { IfErr result.0 (λ o. o ≡ device_side) }
    ensures ran { IfOk result.1
        (λ e. RanToTheEnd P.sizes N.sizes.shards session_side.session session_side.pump session_side.dump.plan e.end
        e.replies e.remains.seat e.remains.mine e.pump e.remains.closed e.dump) }
    ensures back { IfErr result.1 (λ i. i ≡ session_side) }
{
    let pool = shop.pool;
    thread::join(
        rt,
        move || -> Result<DeviceSide<P, W>, DeviceSide<P, W>>
            requires { (C.can_put wiring.now.calls.now × C.can_flush wiring.now.calls.now) × CanFrame wiring.now.mtu
                × (place.now.device_side ≡ device_side) × (place.now.wiring ≡ wiring.now) }
            ensures { IfOk result (λ o. (device_ring o.device.end ≡ device_ring device_side.device.end)
                × (ended o.device.end ≡ true) × ForwardsOut wiring.entry.now.mtu
                (C.put_may wiring.entry.now.calls.now) (C.flush_may wiring.entry.now.calls.now)
                device_side.device.failed o.device.failed (completed device_side.device.end) (completed o.device.end)
                device_side.sent o.sent device_side.wire o.wire)
                × IfErr result (λ o. o ≡ device_side) }
        { device_side.beside(rt, pool, place, wiring, start_barrier) },
        move || -> Result<Ended<N, P, S>, SessionSide<N, P, S>>
            requires { IsFresh P.sizes session_side.session session_side.pump
                × (C.can_put wiring.now.calls.now × C.can_flush wiring.now.calls.now) × CanFrame wiring.now.mtu
                × (place.now.wiring ≡ wiring.now) × CanTake P.sizes N.sizes.shards session_side.dump.plan
                × (session_side.dump.taken ≡ None) }
            ensures { IfOk result
                (λ e. RanToTheEnd P.sizes N.sizes.shards session_side.session session_side.pump
                session_side.dump.plan e.end e.replies e.remains.seat e.remains.mine e.pump e.remains.closed
                e.dump) × IfErr result (λ i. i ≡ session_side) }
        { session_side.within_reach(rt, shop, gate, place, wiring, start_barrier) },
    )
}

// On this thread alone.
fn take_turns<
    R: Wait,
    N: BookName,
    P: PoolName + Send,
    S: Source,
    G: Gate,
    W: Drop,
    C: WireCalls<W>,
>(
    rt: &R,
    shop: &Shop<'_, N, P>,
    session_side: SessionSide<N, P, S>,
    gate: &G,
    device_side: DeviceSide<P, W>,
    wiring: &Wiring<'_, C>,
) -> (W, ServedAccount<N, P, S>)
    requires ready { (C.can_put wiring.now.calls.now × C.can_flush wiring.now.calls.now) × CanFrame wiring.now.mtu }
    requires fresh { IsFresh P.sizes session_side.session session_side.pump }
    requires ring { device_ring device_side.device.end ≡ session_side.session.ring }
    requires unfailed { device_side.device.failed ≡ false }
    requires plan { CanTake P.sizes N.sizes.shards session_side.dump.plan }
    requires untried { session_side.dump.taken ≡ None }
    ensures { HasServed wiring.now.mtu (C.put_may wiring.now.calls.now) (C.flush_may wiring.now.calls.now)
        P.sizes N.sizes.shards session_side.session session_side.pump
        session_side.dump.plan device_side.wire result.1.end result.1.sent result.1.mine result.1.seat result.1.pump
        result.1.dump result.0 }
{
    let SessionSide {
        session,
        pump,
        dump,
    } = session_side;
    let DeviceSide {
        device,
        wire,
        sent: _,
        helped: _,
    } = device_side;
    let link = Link {
        session,
        pump,
        device,
        dump,
        mtu: wiring.mtu,
    };
    serve_in_turns(rt, shop, link, gate, wire, wiring.calls)
}

// With both ends of the ring at hand.
fn settled<N: BookName, P: PoolName + Send, S: Source, W: Drop>(
    ended: Ended<N, P, S>,
    device_side: DeviceSide<P, W>,
) -> (W, ServedAccount<N, P, S>)
    requires { device_ring device_side.device.end ≡ closed_ring ended.remains.closed }
    ensures all { completed device_side.device.end ≡ (closed_view ended.remains.closed).posted }
    ensures end { result.1.end ≡ ended_at ended.end ended.pump.taken ended.replies device_side.device.failed }
    ensures seat { result.1.seat ≡ ended.remains.seat }
    ensures mine { result.1.mine ≡ ended.remains.mine }
    ensures sent { result.1.sent ≡ device_side.sent }
    ensures pump { result.1.pump ≡ ended.pump }
    ensures dump { result.1.dump ≡ ended.dump }
    ensures wire { result.0 ≡ device_side.wire }
{
    let Ended {
        end,
        replies,
        remains,
        pump,
        dump,
    } = ended;
    let Remains {
        seat,
        mine,
        mut closed,
    } = remains;
    let DeviceSide {
        mut device,
        wire,
        sent,
        helped: _,
    } = device_side;
    device.settle(&mut closed);
    let end = SessionEnd {
        end,
        taken: pump.taken(),
        replies,
        failed: device.failed(),
    };
    let account = ServedAccount {
        end,
        seat,
        mine,
        sent,
        pump,
        dump,
    };
    (wire, account)
}
