// A session with its source.
ghost use Rattle.std.specs.Prelude.{◌≡◌, ◌+◌, ◌≤◌, ℕ, List, Option, None, length, OnOk, IfOk, IfErr};
ghost use Rattle.flake_model.specs.Command.{Command as Meaning};
ghost use Rattle.flake_model.specs.Resp.{judged_bytes};
ghost use Rattle.shard_core.specs.Outcomes.{Outcomes};
ghost use Rattle.command_pump.specs.Pump.{Origin};
ghost use Rattle.session_pass.specs.Views.{SessionView};
ghost use Rattle.session_serve.specs.Beside.{RanToTheEnd};
ghost use Rattle.order_book.specs.Pages.{SessionList};
ghost use Rattle.session_serve.specs.Dumps.{CanTake, IsInTime, Stands, as_seeing};
ghost use Rattle.session_serve.specs.Working.{IsWorking, CallsMore, HasStopped};
ghost use Rattle.session_pass.specs.Fresh.{IsFresh};
ghost use Rattle.session_serve.specs.declared.dump.DumpPlan.{DumpPlan as Asked};
ghost use Rattle.device_model.specs.Devices.{CanFrame};

use crate::dump::{DumpTaken, DumpTurn};
use crate::lending::DeviceSlot;
use crate::start_barrier::StartBarrier;
use crate::waiting::{Remains, call, finish};
use crate::wiring::Wiring;
use any_wire::WireCalls;
use command_exec::Shop;
use command_pump::Pump;
use flake_base::{End, Memory, Source};
use order_book::BookName;
use pinned_pool::PoolName;
use reply_planner::Parcel;
use session_pass::{Gate, Session};
use std::sync::Wait;
use tx_descriptor::Framed;

/// Where a session's commands come in.
#[derive(Drop)]
pub(crate) struct SessionSide<N: BookName, P: PoolName + Send, S: Source>
where
    Parcel<P>: Framed,
{
    pub session: Session<N, P>,
    pub pump: Pump<S>,
    pub dump: DumpTurn<P>,
}

/// A session that has ended, and how.
#[derive(Drop)]
pub(crate) struct Ended<N: BookName, P: PoolName + Send, S: Source>
where
    Parcel<P>: Framed,
{
    pub end: End,
    pub replies: u32,
    pub remains: Remains<N, P>,
    pub pump: Pump<S>,
    pub dump: Option<DumpTaken<P>>,
}

impl<N: BookName, P: PoolName + Send, S: Source> SessionSide<N, P, S> {
    // Runs the next command, and before it takes the dump, if it is to stand there; or says how the session ends.
    fn step<R: Wait, G: Gate, W: Drop, C: WireCalls<W>>(
        &mut self,
        rt: &R,
        shop: &Shop<'_, N, P>,
        gate: &G,
        place: &DeviceSlot<'_, P, W, C>,
        wiring: &Wiring<'_, C>,
    ) -> Result<(), End>
        requires few { length self.old.session.posted ≤ judged_bytes + 1 }
        requires ready { (C.can_put wiring.now.calls.now × C.can_flush wiring.now.calls.now) × CanFrame wiring.now.mtu }
        requires same { place.now.wiring ≡ wiring.now }
        requires plan { CanTake P.sizes N.sizes.shards self.old.dump.plan }
        ensures plan { CanTake P.sizes N.sizes.shards self.new.dump.plan }
        ensures stands { (asked : Option (Asked P)) (first : SessionList)
            → Stands N.sizes.shards asked self.old.dump.plan self.old.dump.taken first self.old.session.pass.list
            → IsInTime asked self.old.dump.plan (length self.old.session.posted)
            → Stands N.sizes.shards asked self.new.dump.plan self.new.dump.taken first self.new.session.pass.list }
        ensures in_time { OnOk result ((asked : Option (Asked P)) (first : SessionList)
            → Stands N.sizes.shards asked self.old.dump.plan self.old.dump.taken first self.old.session.pass.list
            → IsInTime asked self.old.dump.plan (length self.old.session.posted)
            → IsInTime asked self.new.dump.plan (length self.new.session.posted)) }
        ensures ring { self.new.session.ring ≡ self.old.session.ring }
        ensures call { OnOk result ((first : SessionView) (origin : Origin) (before : ℕ)
            (given : List Meaning) (calls : List Outcomes)
            → IsWorking P.sizes N.sizes.shards first origin before given calls self.old.session self.old.pump
            → CallsMore P.sizes N.sizes.shards (as_seeing self.new.session.pass.list first) origin before given calls
            self.new.session self.new.pump) }
        ensures end { IfErr result (λ end. (first : SessionView) (origin : Origin) (before : ℕ)
            (given : List Meaning) (calls : List Outcomes)
            → IsWorking P.sizes N.sizes.shards first origin before given calls self.old.session self.old.pump
            → HasStopped P.sizes N.sizes.shards (as_seeing self.new.session.pass.list first) origin before end
            self.new.session self.new.pump) }
    {
        let command = match self.pump.next() {
            Ok(command) => command,
            Err(end) => return Err(end),
        };
        gate.before(rt, self.session.number(), self.session.calls());
        self.dump.take_before_call(rt, shop, &mut self.session);
        let called = call(rt, shop, &mut self.session, &command, place, wiring);
        match called {
            Ok(()) => {}
            Err(Memory) => return Err(End::Memory),
        }
        self.pump.give_back(command);
        Ok(())
    }

    // Runs the commands, each behind the gate, to the source's end or until memory is wanting. The dump is taken before
    // its call, or last.
    fn run<R: Wait, G: Gate, W: Drop, C: WireCalls<W>>(
        self,
        rt: &R,
        shop: &Shop<'_, N, P>,
        gate: &G,
        place: &DeviceSlot<'_, P, W, C>,
        wiring: &Wiring<'_, C>,
    ) -> Ended<N, P, S>
        requires fresh { IsFresh P.sizes self.session self.pump }
        requires ready { (C.can_put wiring.now.calls.now × C.can_flush wiring.now.calls.now) × CanFrame wiring.now.mtu }
        requires same { place.now.wiring ≡ wiring.now }
        requires plan { CanTake P.sizes N.sizes.shards self.dump.plan }
        requires untried { self.dump.taken ≡ None }
        ensures { RanToTheEnd P.sizes N.sizes.shards self.session self.pump self.dump.plan result.end result.replies
            result.remains.seat result.remains.mine result.pump result.remains.closed result.dump }
    {
        let mut session_side = self;
        let end = 'calls: loop {
            if let Err(end) = session_side.step(rt, shop, gate, place, wiring) {
                break end;
            }
        };
        let SessionSide {
            mut session,
            pump,
            mut dump,
        } = session_side;
        dump.take(rt, shop, &mut session);
        let DumpTurn { taken, .. } = dump;
        let replies = session.calls();
        let remains = finish(rt, shop, session, place, wiring);
        Ended {
            end,
            replies,
            remains,
            pump,
            dump: taken,
        }
    }

    /// The same beside its device, whose device is within reach; or nothing is done, where the device doesn't come.
    pub fn within_reach<R: Wait, G: Gate, W: Drop, C: WireCalls<W>>(
        self,
        rt: &R,
        shop: &Shop<'_, N, P>,
        gate: &G,
        place: &DeviceSlot<'_, P, W, C>,
        wiring: &Wiring<'_, C>,
        start_barrier: &StartBarrier,
    ) -> Result<Ended<N, P, S>, Self>
        requires fresh { IsFresh P.sizes self.session self.pump }
        requires ready { (C.can_put wiring.now.calls.now × C.can_flush wiring.now.calls.now) × CanFrame wiring.now.mtu }
        requires same { place.now.wiring ≡ wiring.now }
        requires plan { CanTake P.sizes N.sizes.shards self.dump.plan }
        requires untried { self.dump.taken ≡ None }
        ensures ran { IfOk result (λ e. RanToTheEnd P.sizes N.sizes.shards self.session self.pump self.dump.plan e.end
            e.replies e.remains.seat e.remains.mine e.pump e.remains.closed e.dump) }
        ensures back { IfErr result (λ i. i ≡ self) }
    {
        if !start_barrier.wait(rt) {
            return Err(self);
        }
        Ok(self.run(rt, shop, gate, place, wiring))
    }
}
