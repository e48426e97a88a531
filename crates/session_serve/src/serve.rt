// A session from its source to its wire.
ghost use Rattle.std.specs.Prelude.{◌≡◌, ◌≢◌, false, None};
ghost use Rattle.command_pump.specs.Pump.{EndFaults};
ghost use Rattle.tx_ring.specs.Shown.{device_ring};
ghost use Rattle.device_model.specs.Devices.{CanFrame};
ghost use Rattle.session_serve.specs.Dumps.{CanTake, DumpCame};
ghost use Rattle.session_serve.specs.Served.{IsServed};
ghost use Rattle.session_pass.specs.Fresh.{IsFresh};

use crate::counting::counted;
use crate::link::{Link, ServedAccount};
use any_wire::WireCalls;
use command_exec::Shop;
use flake_base::{End, Source};
use order_book::BookName;
use pinned_pool::PoolName;
use session_pass::{Gate, laws};
use std::sync::Wait;

/// Runs the commands of a source in order, each behind the gate, and puts each reply before the next command is read,
/// to the source's end or until memory is wanting; then the wire is flushed. After a failed put or flush nothing more
/// is put, and all commands are still run. The dump is taken before its call, or last. Where the link has a bound, a
/// reply is put as its frames of at most so many bytes.
pub(crate) fn serve_in_turns<
    R: Wait,
    N: BookName,
    P: PoolName + Send,
    S: Source,
    G: Gate,
    W: Drop,
    C: WireCalls<W>,
>(
    rt: &R,
    shop: &Shop<'_, N, P>,
    link: Link<N, P, S>,
    gate: &G,
    wire: W,
    calls: &C,
) -> (W, ServedAccount<N, P, S>)
    requires calls { C.can_put calls.now × C.can_flush calls.now }
    requires fresh { IsFresh P.sizes link.session link.pump }
    requires ring { device_ring link.device.end ≡ link.session.ring }
    requires unfailed { link.device.failed ≡ false }
    requires plan { CanTake P.sizes N.sizes.shards link.dump.plan }
    requires untried { link.dump.taken ≡ None }
    requires mtu { CanFrame link.mtu }
    ensures served { IsServed link.mtu (C.put_may calls.now) (C.flush_may calls.now) P.sizes
        N.sizes.shards link.session result.1.pump.given result.1.pump.ended result.1.end result.1.sent
        result.1.mine result.1.seat wire result.0 }
    ensures origin { result.1.pump.origin ≡ link.pump.origin }
    ensures reads { EndFaults result.1.end.end link.pump.faults result.1.pump.faults }
    ensures to_the_end { result.1.end.end ≢ End.Left }
    ensures credits { result.1.seat.credits ≡ link.session.opened.credits }
    ensures dump { DumpCame N.sizes.shards link.dump.plan result.1.dump link.session.pass.list result.1.mine }
{
    let mut link = link;
    let mut wire = wire;
    let mut sent = 0;
    laws::both_ends(&mut link.session, &mut link.device);
    let end = 'turns: loop {
        let (after, turned) = link.turn(rt, shop, gate, wire, calls);
        wire = after;
        match turned {
            Ok(bytes) => sent = counted(sent, bytes),
            Err(end) => break end,
        }
    };
    link.dump.take(rt, shop, &mut link.session);
    link.close(shop, end, sent, wire, calls)
}
