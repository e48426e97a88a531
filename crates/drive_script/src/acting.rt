// One line of a schedule.
ghost use Rattle.std.specs.Prelude.{◌≡◌, ◌-◌, ◌^◌, ◌<◌, ◌++◌, ◌∷◌, [], ℕ, List, Option, length};
ghost use Rattle.view_sums.specs.Total.{Each};
ghost use Rattle.flake_model.specs.Command.{Command as Meaning};
ghost use Rattle.command_pump.specs.Pump.{Origin};
ghost use Rattle.schedule_text.specs.Text.{line_session};
ghost use Rattle.tx_ring.specs.Shown.{device_ring};
ghost use Rattle.transcript_model.specs.Lines.{LineEvent, line_of};
ghost use Rattle.drive_script.specs.Asked.{IsAsked, GoesOn};
ghost use Rattle.drive_script.specs.Happened.{line_event};
ghost use Rattle.drive_script.specs.Connections.{Fixed, IsConnection, sends_by};
ghost use Rattle.drive_script.specs.Recycled.{Recycles};
ghost use Rattle.drive_script.specs.Running.{RunsOn};
ghost use Rattle.drive_script.specs.Shown.{session_shown, device_shown};

use crate::asking::Asking;
use crate::connection::Connection;
use crate::happened::Happened;
use any_wire::WireCalls;
use command_exec::Shop;
use flake_base::{Seg, Source};
use order_book::BookName;
use pinned_pool::PoolName;
use schedule_text::Line;
use std::sync::Wait;

impl<N: BookName, P: PoolName + Send> Connection<N, P> {
    /// Does what a line of a schedule asks of this session.
    pub fn act<R: Wait, S: Source, W: Drop, C: WireCalls<W>>(
        &mut self,
        rt: &R,
        shop: &Shop<'_, N, P>,
        line: Line,
        asking: &mut Asking<S>,
        sent: &mut Vec<Seg>,
        stored: &mut Vec<Seg>,
        wire: W,
        calls: &C,
    ) -> (W, Happened)
        requires calls { C.can_put calls.now × C.can_flush calls.now }
        requires ring { device_ring self.old.device.end ≡ self.old.session.ring }
        requires small { Each (λ buffer. buffer < P.sizes.small) self.old.session.pass.stage }
        requires few { length self.old.session.posted < 2 ^ 32 - 1 }
        ensures ring { device_ring self.new.device.end ≡ self.new.session.ring }
        ensures stage { self.new.session.pass.stage ≡ self.old.session.pass.stage }
        ensures answers { line_of (record {
          session = line_session line;
          event = line_event result.1 sent.new.items stored.new.items;
        }) ≡ line }
        ensures recycles { Recycles result.1 self.old.session self.new.session }
        ensures right { (fixed : Fixed) (start : W) (given : List Meaning) (events : List LineEvent)
            (origin : Origin) (before : ℕ)
            → IsAsked origin before given (length self.old.session.posted) asking.old.kept asking.old.end
            asking.old.pump
            → IsConnection (sends_by (C.put_may calls.now) (C.flush_may calls.now)) fixed start given
            asking.old.end events (session_shown P.sizes self.old.session)
            (device_shown self.old.device.failed self.old.device.end) wire
            → GoesOn origin before (length self.new.session.posted) asking.new.kept asking.new.end asking.new.pump
            (λ now. IsConnection (sends_by (C.put_may calls.now) (C.flush_may calls.now)) fixed
            start now asking.new.end (events ++ line_event result.1 sent.new.items stored.new.items ∷ [])
            (session_shown P.sizes self.new.session) (device_shown self.new.device.failed self.new.device.end)
            result.0
            × RunsOn P.sizes N.sizes.shards given asking.old.end self.old.session now asking.new.end
            self.new.session) }
    {
        match line {
            Line::Call(_) => {
                let happened = self.call(rt, shop, asking, sent, stored);
                (wire, happened)
            }
            Line::Gather(_) => self.gather(shop.pool, wire, calls),
            Line::Reap(_) => {
                let happened = self.reap(shop);
                (wire, happened)
            }
        }
    }
}
