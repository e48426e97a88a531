// The end of a driven session.
ghost use Rattle.std.specs.Prelude.{◌≡◌, List, length, unwrap_or};
ghost use Rattle.flake_base.specs.declared.session.End.TheVariants as ends;
ghost use Rattle.command_pump.specs.Pump.{ended_at};
ghost use Rattle.tx_ring.specs.Shown.{device_ring, completed};
ghost use Rattle.session_serve.specs.Working.{IsLeft};
ghost use Rattle.transcript_model.specs.Lines.{LineEvent};
ghost use Rattle.drive_script.specs.Driving.{Driving as Shown, driving_of, IsUnderWay};
ghost use Rattle.drive_script.specs.Connections.{sends_by};
ghost use Rattle.drive_script.specs.Left.{IsGoing, HasLeft};
ghost use Rattle.drive_script.specs.Ran.{HasDriven};

use crate::asking::Asking;
use crate::connection::Connection;
use crate::driving::Driving;
use any_wire::WireCalls;
use command_exec::Shop;
use command_pump::Pump;
use flake_base::{End, SessionEnd, Source};
use order_book::{BookName, SessionSeat};
use pinned_pool::{PoolName, PoolSeat};
use session_pass::Finish;

/// What a connection leaves.
#[derive(Drop)]
pub(crate) struct Remains<N: BookName, P: PoolName> {
    pub end: SessionEnd,
    pub seat: PoolSeat<P>,
    pub mine: SessionSeat<N>,
}

/// What a driven session leaves.
#[derive(Drop)]
pub struct DrivenAccount<N: BookName, P: PoolName, S: Source, W> {
    pub end: SessionEnd,
    pub seat: PoolSeat<P>,
    pub mine: SessionSeat<N>,
    /// With its source, and what that has left.
    pub pump: Pump<S>,
    pub wire: W,
}

impl<N: BookName, P: PoolName + Send> Connection<N, P> {
    // Gives all replies back, and closes ring and pass.
    fn close(self, shop: &Shop<'_, N, P>, end: End, taken: u64) -> Remains<N, P>
        requires ring { device_ring self.device.end ≡ self.session.ring }
        requires all { completed self.device.end ≡ self.session.posted }
        requires told { self.session.told ≡ length self.session.posted }
        ensures end { result.end ≡ ended_at end taken (length self.session.posted) self.device.failed }
        ensures list { result.mine ≡ self.session.pass.list }
        ensures left { IsLeft self.session result.seat result.mine }
    {
        let Connection {
            session,
            mut device,
        } = self;
        let replies = session.calls();
        match session.finish(shop) {
            Finish::Done {
                seat,
                mine,
                mut closed,
            } => {
                device.settle(&mut closed);
                let end = SessionEnd {
                    end,
                    taken,
                    replies,
                    failed: device.failed(),
                };
                Remains { end, seat, mine }
            }
            Finish::NotYet(_) => unreachable!(),
        }
    }
}

impl<N: BookName, P: PoolName + Send, S: Source, W: Drop> Driving<N, P, S, W> {
    /// Gathers and gives back what is left, without lines, and closes ring and pass. Where no end was said, the session
    /// is left.
    pub fn leave<C: WireCalls<W>>(
        self,
        shop: &Shop<'_, N, P>,
        calls: &C,
    ) -> DrivenAccount<N, P, S, W>
        requires calls { C.can_put calls.now × C.can_flush calls.now }
        requires going { IsGoing (sends_by (C.put_may calls.now) (C.flush_may calls.now))
            P.sizes N.sizes.shards (driving_of self.connection.session self.connection.device.failed
            self.connection.device.end
            self.asking.kept self.asking.end self.asking.pump self.wire) }
        ensures left { (first : Shown W) (events : List LineEvent)
            → IsUnderWay (sends_by (C.put_may calls.now) (C.flush_may calls.now))
            P.sizes N.sizes.shards first events (driving_of self.connection.session self.connection.device.failed
            self.connection.device.end self.asking.kept self.asking.end self.asking.pump self.wire)
            → HasLeft (sends_by (C.put_may calls.now) (C.flush_may calls.now)) P.sizes first
            events result.end result.mine result.pump result.wire }
        ensures driven { (first : Shown W) (events : List LineEvent)
            → IsUnderWay (sends_by (C.put_may calls.now) (C.flush_may calls.now))
            P.sizes N.sizes.shards first events (driving_of self.connection.session self.connection.device.failed
            self.connection.device.end self.asking.kept self.asking.end self.asking.pump self.wire)
            → HasDriven (C.put_may calls.now) (C.flush_may calls.now) P.sizes N.sizes.shards first
            events result.end result.mine result.seat result.pump result.wire }
    {
        let mut driving = self;
        driving.gather_all(shop.pool, calls);
        let Driving {
            connection,
            asking,
            wire,
        } = driving;
        let Asking { pump, kept: _, end } = asking;
        let Some(wire) = wire else { unreachable!() };
        let Remains { end, seat, mine } = connection.close(
            shop,
            end.unwrap_or(End::Left),
            pump.taken(),
        );
        DrivenAccount {
            end,
            seat,
            mine,
            pump,
            wire,
        }
    }
}
