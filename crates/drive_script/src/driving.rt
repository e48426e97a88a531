// A session that is driven, with its input and its wire.
ghost use Rattle.std.specs.Prelude.{◌≡◌, ◌++◌, ◌∷◌, [], List, IsSome};
ghost use Rattle.schedule_text.specs.Text.{line_session};
ghost use Rattle.schedule_text.specs.declared.line.Line.TheVariants as asked;
ghost use Rattle.tx_ring.specs.Shown.{device_ring};
ghost use Rattle.transcript_model.specs.Lines.{LineEvent, line_of};
ghost use Rattle.drive_script.specs.Driving.{Driving as Shown, driving_of, IsAble, IsUnderWay};
ghost use Rattle.drive_script.specs.Happened.{line_event};
ghost use Rattle.drive_script.specs.Connections.{sends_by};
ghost use Rattle.drive_script.specs.Left.{IsGoing, GathersAll};
ghost use Rattle.drive_script.specs.Ran.{FlushesOnly, GathersOut};
ghost use Rattle.drive_script.specs.Recycled.{Recycles};

use crate::asking::Asking;
use crate::connection::Connection;
use crate::happened::Happened;
use any_wire::WireCalls;
use command_exec::Shop;
use flake_base::{Seg, Source};
use order_book::BookName;
use pinned_pool::{Pool, PoolName};
use reply_planner::Parcel;
use schedule_text::Line;
use std::sync::Wait;
use tx_descriptor::Framed;

/// A session with all that its lines need. Its wire is there between any two lines.
#[derive(Drop)]
pub struct Driving<N: BookName, P: PoolName + Send, S: Source, W>
where
    Parcel<P>: Framed,
{
    pub connection: Connection<N, P>,
    pub asking: Asking<S>,
    pub wire: Option<W>,
}

impl<N: BookName, P: PoolName + Send, S: Source, W: Drop> Driving<N, P, S, W> {
    /// Does what a line of a schedule asks of it. Where a call is posted, `sent` becomes its segments, and `stored` the
    /// fragments that were stored.
    pub fn act<R: Wait, C: WireCalls<W>>(
        &mut self,
        rt: &R,
        shop: &Shop<'_, N, P>,
        line: Line,
        sent: &mut Vec<Seg>,
        stored: &mut Vec<Seg>,
        calls: &C,
    ) -> Happened
        requires calls { C.can_put calls.now × C.can_flush calls.now }
        requires able { IsAble P.sizes (driving_of self.old.connection.session self.old.connection.device.failed
            self.old.connection.device.end self.old.asking.kept self.old.asking.end self.old.asking.pump
            self.old.wire) }
        ensures answers { line_of (record {
          session = line_session line;
          event = line_event result sent.new.items stored.new.items;
        }) ≡ line }
        ensures recycles { Recycles result self.old.connection.session self.new.connection.session }
        ensures right { (first : Shown W) (events : List LineEvent)
            → IsUnderWay (sends_by (C.put_may calls.now) (C.flush_may calls.now))
            P.sizes N.sizes.shards first events (driving_of self.old.connection.session
            self.old.connection.device.failed self.old.connection.device.end self.old.asking.kept self.old.asking.end
            self.old.asking.pump self.old.wire) → IsUnderWay (sends_by (C.put_may calls.now) (C.flush_may calls.now))
            P.sizes N.sizes.shards first (events ++ line_event result sent.new.items stored.new.items ∷ []) (driving_of
            self.new.connection.session self.new.connection.device.failed self.new.connection.device.end
            self.new.asking.kept self.new.asking.end self.new.asking.pump
            self.new.wire) }
    {
        let Some(wire) = self.wire.take() else {
            unreachable!()
        };
        let (wire, happened) = self.connection.act(
            rt,
            shop,
            line,
            &mut self.asking,
            sent,
            stored,
            wire,
            calls,
        );
        self.wire = Some(wire);
        happened
    }

    /// Gathers the next reply, without a line.
    fn gather<C: WireCalls<W>>(&mut self, pool: &Pool<P>, calls: &C) -> Happened
        requires calls { C.can_put calls.now × C.can_flush calls.now }
        requires ring { device_ring self.old.connection.device.end ≡ self.old.connection.session.ring }
        requires wire { IsSome self.old.wire }
        ensures ring { device_ring self.new.connection.device.end ≡ self.new.connection.session.ring }
        ensures wire { IsSome self.new.wire }
        ensures posted { self.new.connection.session.posted ≡ self.old.connection.session.posted }
        ensures answers { line_of (record { session = 0; event = line_event result [] [] }) ≡ asked.Gather 0 }
        ensures flushed { (result ≡ Happened.NothingPosted) → FlushesOnly (C.flush_may calls.now)
            (driving_of self.old.connection.session self.old.connection.device.failed self.old.connection.device.end
            self.old.asking.kept self.old.asking.end self.old.asking.pump self.old.wire)
            (driving_of self.new.connection.session self.new.connection.device.failed self.new.connection.device.end
            self.new.asking.kept self.new.asking.end self.new.asking.pump self.new.wire) }
        ensures right { (first : Shown W) (events : List LineEvent)
            → IsUnderWay (sends_by (C.put_may calls.now) (C.flush_may calls.now))
            P.sizes N.sizes.shards first events (driving_of self.old.connection.session
            self.old.connection.device.failed self.old.connection.device.end self.old.asking.kept self.old.asking.end
            self.old.asking.pump self.old.wire) → IsUnderWay (sends_by (C.put_may calls.now) (C.flush_may calls.now))
            P.sizes N.sizes.shards first (events ++ line_event result [] [] ∷ []) (driving_of
            self.new.connection.session self.new.connection.device.failed self.new.connection.device.end
            self.new.asking.kept self.new.asking.end self.new.asking.pump
            self.new.wire) }
    {
        let Some(wire) = self.wire.take() else {
            unreachable!()
        };
        let (wire, happened) = self.connection.gather(pool, wire, calls);
        self.wire = Some(wire);
        happened
    }

    /// Gathers what is left, without lines, and flushes the wire.
    pub fn gather_all<C: WireCalls<W>>(&mut self, pool: &Pool<P>, calls: &C)
        requires calls { C.can_put calls.now × C.can_flush calls.now }
        requires going { IsGoing (sends_by (C.put_may calls.now) (C.flush_may calls.now))
            P.sizes N.sizes.shards (driving_of self.old.connection.session self.old.connection.device.failed
            self.old.connection.device.end self.old.asking.kept self.old.asking.end self.old.asking.pump
            self.old.wire) }
        ensures ring { device_ring self.new.connection.device.end ≡ self.new.connection.session.ring }
        ensures wire { IsSome self.new.wire }
        ensures right { (first : Shown W) (events : List LineEvent)
            → IsUnderWay (sends_by (C.put_may calls.now) (C.flush_may calls.now))
            P.sizes N.sizes.shards first events (driving_of self.old.connection.session
            self.old.connection.device.failed self.old.connection.device.end self.old.asking.kept self.old.asking.end
            self.old.asking.pump self.old.wire) → GathersAll (sends_by (C.put_may calls.now) (C.flush_may calls.now))
            P.sizes N.sizes.shards first events (driving_of self.new.connection.session
            self.new.connection.device.failed self.new.connection.device.end self.new.asking.kept self.new.asking.end
            self.new.asking.pump self.new.wire) }
        ensures out { (first : Shown W) (events : List LineEvent)
            → IsUnderWay (sends_by (C.put_may calls.now) (C.flush_may calls.now))
            P.sizes N.sizes.shards first events (driving_of self.old.connection.session
            self.old.connection.device.failed self.old.connection.device.end self.old.asking.kept self.old.asking.end
            self.old.asking.pump self.old.wire) → GathersOut (C.put_may calls.now) (C.flush_may calls.now) P.sizes
            N.sizes.shards first events (driving_of self.new.connection.session self.new.connection.device.failed
            self.new.connection.device.end self.new.asking.kept self.new.asking.end self.new.asking.pump
            self.new.wire) }
    {
        let made = self.connection.session.calls();
        for i in 0..u64::from(made) + 1 {
            if let Happened::NothingPosted = self.gather(pool, calls) {
                return;
            }
        }
        unreachable!()
    }
}
