// One command after another.
ghost use Rattle.std.specs.Prelude.{◌≡◌, ℕ, List, Option, length, IfOk, IfErr, OnOk, OnErr};
ghost use Rattle.order_book.specs.Pages.{SessionList};
ghost use Rattle.flake_model.specs.Command.{Command as Meaning};
ghost use Rattle.shard_core.specs.Outcomes.{Outcomes};
ghost use Rattle.command_pump.specs.Pump.{Origin};
ghost use Rattle.tx_ring.specs.Shown.{completed};
ghost use Rattle.device_model.specs.Devices.{CanFrame, ForwardsAs};
ghost use Rattle.session_pass.specs.Views.{SessionView};
ghost use Rattle.session_serve.specs.Dumps.{CanTake, IsInTime, Stands, as_seeing};
ghost use Rattle.session_serve.specs.Whole.{SendsMore};
ghost use Rattle.session_serve.specs.Working.{IsGathered, IsReady, IsWorking, CallsMore, HasStopped, HasOneMore};
ghost use Rattle.session_serve.specs.declared.dump.DumpPlan.{DumpPlan as Asked};

use crate::counting::whole_bytes;
use crate::gather::gather_next;
use crate::link::Link;
use any_wire::WireCalls;
use command_exec::Shop;
use flake_base::{End, Source};
use order_book::BookName;
use pinned_pool::PoolName;
use session_pass::{CallError, Gate, laws};
use std::sync::Wait;

impl<N: BookName, P: PoolName + Send, S: Source> Link<N, P, S> {
    /// Runs the next command and puts its reply, and answers how many bytes were put in a whole reply; or says how the
    /// session ends. Before the command the dump is taken, if it is to stand there.
    pub(crate) fn turn<R: Wait, G: Gate, W: Drop, C: WireCalls<W>>(
        &mut self,
        rt: &R,
        shop: &Shop<'_, N, P>,
        gate: &G,
        wire: W,
        calls: &C,
    ) -> (W, Result<u64, End>)
        requires calls { C.can_put calls.now × C.can_flush calls.now }
        requires gathered { IsGathered self.old.session self.old.device.end }
        requires ready { IsReady self.old.session }
        requires plan { CanTake P.sizes N.sizes.shards self.old.dump.plan }
        requires mtu { CanFrame self.old.mtu }
        ensures mtu { self.new.mtu ≡ self.old.mtu }
        ensures plan { CanTake P.sizes N.sizes.shards self.new.dump.plan }
        ensures stands { (asked : Option (Asked P)) (first : SessionList)
            → Stands N.sizes.shards asked self.old.dump.plan self.old.dump.taken first self.old.session.pass.list
            → IsInTime asked self.old.dump.plan (length self.old.session.posted)
            → Stands N.sizes.shards asked self.new.dump.plan self.new.dump.taken first self.new.session.pass.list }
        ensures in_time { OnOk result.1 ((asked : Option (Asked P)) (first : SessionList)
            → Stands N.sizes.shards asked self.old.dump.plan self.old.dump.taken first self.old.session.pass.list
            → IsInTime asked self.old.dump.plan (length self.old.session.posted)
            → IsInTime asked self.new.dump.plan (length self.new.session.posted)) }
        ensures gathered { IsGathered self.new.session self.new.device.end }
        ensures forwards { ForwardsAs self.old.mtu (C.put_may calls.now) (C.flush_may calls.now)
            self.old.device.failed self.new.device.failed self.old.session.posted self.new.session.posted wire
            result.0 }
        ensures sent { IfOk result.1 (λ bytes. SendsMore self.old.mtu (C.put_may calls.now) (C.flush_may calls.now)
            self.old.device.failed self.new.device.failed self.old.session.posted
            self.new.session.posted bytes wire result.0) }
        ensures none_sent { OnErr result.1 (SendsMore self.old.mtu (C.put_may calls.now) (C.flush_may calls.now)
            self.old.device.failed self.new.device.failed self.old.session.posted
            self.new.session.posted 0 wire result.0) }
        ensures unstopped { OnOk result.1 (self.new.session.stopped ≡ self.old.session.stopped) }
        ensures call { OnOk result.1 ((first : SessionView) (origin : Origin) (before : ℕ)
            (given : List Meaning) (calls : List Outcomes)
            → IsWorking P.sizes N.sizes.shards first origin before given calls self.old.session self.old.pump
            → CallsMore P.sizes N.sizes.shards (as_seeing self.new.session.pass.list first) origin before given calls
            self.new.session self.new.pump) }
        ensures end { IfErr result.1 (λ end. (first : SessionView) (origin : Origin) (before : ℕ)
            (given : List Meaning) (calls : List Outcomes)
            → IsWorking P.sizes N.sizes.shards first origin before given calls self.old.session self.old.pump
            → HasStopped P.sizes N.sizes.shards (as_seeing self.new.session.pass.list first) origin before end
            self.new.session self.new.pump) }
    {
        let command = match self.pump.next() {
            Ok(command) => command,
            Err(end) => return (wire, Err(end)),
        };
        gate.before(rt, self.session.number(), self.session.calls());
        self.dump.take_before_call(rt, shop, &mut self.session);
        match self.session.call_untold(rt, shop, &command) {
            Ok(_) => {}
            Err(CallError::Memory) => return (wire, Err(End::Memory)),
            Err(_) => unreachable!(),
        }
        self.pump.give_back(command);
        let (wire, bytes) = self.forward(shop, wire, calls);
        (wire, Ok(bytes))
    }

    // Puts the reply that was posted last, and answers how many bytes were put in a whole reply.
    fn forward<W: Drop, C: WireCalls<W>>(
        &mut self,
        shop: &Shop<'_, N, P>,
        wire: W,
        calls: &C,
    ) -> (W, u64)
        requires calls { C.can_put calls.now × C.can_flush calls.now }
        requires one { HasOneMore self.old.session self.old.device.end }
        requires mtu { CanFrame self.old.mtu }
        ensures mtu { self.new.mtu ≡ self.old.mtu }
        ensures gathered { IsGathered self.new.session self.new.device.end }
        ensures session { self.new.session
            ≡ record self.old.session { told = length self.old.session.posted } }
        ensures pump { self.new.pump ≡ self.old.pump }
        ensures dump { self.new.dump ≡ self.old.dump }
        ensures forwards { ForwardsAs self.old.mtu (C.put_may calls.now) (C.flush_may calls.now)
            self.old.device.failed self.new.device.failed (completed self.old.device.end) self.old.session.posted wire
            result.0 }
        ensures sent { SendsMore self.old.mtu (C.put_may calls.now) (C.flush_may calls.now)
            self.old.device.failed self.new.device.failed (completed self.old.device.end) self.old.session.posted
            result.1 wire result.0 }
    {
        // The device is told what was posted, and then the session what was gathered.
        laws::both_ends(&mut self.session, &mut self.device);
        let (wire, found) = gather_next(&mut self.device, shop.pool, wire, self.mtu, calls);
        laws::both_ends(&mut self.session, &mut self.device);
        (wire, whole_bytes(found))
    }
}
