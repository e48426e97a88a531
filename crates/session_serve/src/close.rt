// The end of a served session.
ghost use Rattle.std.specs.Prelude.{◌≡◌, length};
ghost use Rattle.command_pump.specs.Pump.{ended_at};
ghost use Rattle.any_wire.specs.Sends.{Flushes};
ghost use Rattle.session_serve.specs.Working.{IsGathered, IsLeft};

use crate::dump::DumpTurn;
use crate::link::{Link, ServedAccount};
use any_wire::WireCalls;
use command_exec::Shop;
use flake_base::{End, SessionEnd, Source};
use order_book::BookName;
use pinned_pool::PoolName;
use session_pass::Finish;

impl<N: BookName, P: PoolName + Send, S: Source> Link<N, P, S> {
    /// Gives all replies back, closes ring and pass, and flushes the wire. So many bytes were put in whole replies.
    pub(crate) fn close<W: Drop, C: WireCalls<W>>(
        self,
        shop: &Shop<'_, N, P>,
        end: End,
        sent: u64,
        wire: W,
        calls: &C,
    ) -> (W, ServedAccount<N, P, S>)
        requires calls { C.can_put calls.now × C.can_flush calls.now }
        requires gathered { IsGathered self.session self.device.end }
        ensures left { IsLeft self.session result.1.seat result.1.mine }
        ensures end { result.1.end ≡ ended_at end self.pump.taken (length self.session.posted) result.1.end.failed }
        ensures sent { result.1.sent ≡ sent }
        ensures pump { result.1.pump ≡ self.pump }
        ensures dump { result.1.dump ≡ self.dump.taken }
        ensures flushed { Flushes (C.flush_may calls.now) self.device.failed result.1.end.failed wire
            result.0 }
    {
        let Link {
            session,
            pump,
            mut device,
            dump,
            mtu: _,
        } = self;
        let DumpTurn { taken, .. } = dump;
        let replies = session.calls();
        match session.finish(shop) {
            Finish::Done {
                seat,
                mine,
                mut closed,
            } => {
                let (wire, _) = device.gather(shop.pool, wire, calls);
                device.settle(&mut closed);
                let end = SessionEnd {
                    end,
                    taken: pump.taken(),
                    replies,
                    failed: device.failed(),
                };
                let account = ServedAccount {
                    end,
                    seat,
                    mine,
                    sent,
                    pump,
                    dump: taken,
                };
                (wire, account)
            }
            Finish::NotYet(_) => unreachable!(),
        }
    }
}
