// Calls of a driven session.
ghost use Rattle.std.specs.Prelude.{◌≡◌, ◌-◌, ◌^◌, ◌<◌, ◌≤◌, ◌++◌, ◌∷◌, [], ℕ, List, Option, length};
ghost use Rattle.view_sums.specs.Total.{Each};
ghost use Rattle.flake_base.specs.declared.segment.Seg.{Seg};
ghost use Rattle.flake_model.specs.Command.{Command as Meaning};
ghost use Rattle.command_pump.specs.Pump.{Origin};
ghost use Rattle.reply_planner.specs.Parcels.{Sent};
ghost use Rattle.schedule_text.specs.declared.line.Line.TheVariants as asked;
ghost use Rattle.tx_ring.specs.Shown.{device_ring};
ghost use Rattle.transcript_model.specs.Lines.{LineEvent, line_of};
ghost use Rattle.drive_script.specs.Asked.{IsAsked, GoesOn};
ghost use Rattle.drive_script.specs.Happened.{line_event};
ghost use Rattle.drive_script.specs.Connections.{Fixed, IsDriven};
ghost use Rattle.drive_script.specs.Running.{RunsOn};
ghost use Rattle.drive_script.specs.Shown.{session_shown, device_shown};

use crate::asking::Asking;
use crate::connection::Connection;
use crate::happened::Happened;
use command_exec::Shop;
use flake_base::{Seg, Source};
use order_book::BookName;
use pinned_pool::PoolName;
use session_pass::laws;
use std::sync::Wait;

impl<N: BookName, P: PoolName + Send> Connection<N, P> {
    /// Calls the session's next command. `sent` becomes the reply's segments, `stored` the fragments that were stored.
    pub fn call<R: Wait, S: Source>(
        &mut self,
        rt: &R,
        shop: &Shop<'_, N, P>,
        asking: &mut Asking<S>,
        sent: &mut Vec<Seg>,
        stored: &mut Vec<Seg>,
    ) -> Happened
        requires ring { device_ring self.old.device.end ≡ self.old.session.ring }
        requires small { Each (λ buffer. buffer < P.sizes.small) self.old.session.pass.stage }
        requires few { length self.old.session.posted < 2 ^ 32 - 1 }
        ensures ring { device_ring self.new.device.end ≡ self.new.session.ring }
        ensures stage { self.new.session.pass.stage ≡ self.old.session.pass.stage }
        ensures failed { self.new.device.failed ≡ self.old.device.failed }
        ensures posted { (more : List Sent) × (self.new.session.posted ≡ self.old.session.posted ++ more)
            × (length more ≤ 1) }
        ensures answers { (session : ℕ) (segments fragments : List Seg)
            → line_of (record { session = session; event = line_event result segments fragments })
            ≡ asked.Call session }
        ensures right { (fixed : Fixed) (given : List Meaning) (whole : ℕ) (events : List LineEvent)
            (origin : Origin) (before : ℕ)
            → IsAsked origin before given (length self.old.session.posted) asking.old.kept asking.old.end
            asking.old.pump
            → IsDriven fixed given asking.old.end whole events (session_shown P.sizes self.old.session)
            (device_shown self.old.device.failed self.old.device.end)
            → GoesOn origin before (length self.new.session.posted) asking.new.kept asking.new.end asking.new.pump
            (λ now. IsDriven fixed now asking.new.end whole
            (events ++ line_event result sent.new.items stored.new.items ∷ [])
            (session_shown P.sizes self.new.session) (device_shown self.new.device.failed self.new.device.end)
            × RunsOn P.sizes N.sizes.shards given asking.old.end self.old.session now asking.new.end
            self.new.session) }
    {
        if asking.end.is_some() {
            return Happened::AtEnd;
        }
        let command = match asking.next() {
            Ok(command) => command,
            Err(end) => {
                asking.end = Some(end);
                return Happened::AtEnd;
            }
        };
        self.session.is_session();
        let called = self.session.call(rt, shop, &command, sent, stored);
        self.session.is_session();
        laws::both_ends(&mut self.session, &mut self.device);
        match called {
            Ok(posted) => {
                asking.pump.give_back(command);
                Happened::Posted {
                    call: posted.call,
                    reaped: posted.reaped,
                }
            }
            Err(error) => asking.refuse(command, error),
        }
    }
}
