// A session that is driven.
ghost use Rattle.std.specs.Prelude.{◌≡◌, ◌++◌, ◌∷◌, [], ℕ, List, Option};
ghost use Rattle.any_wire.specs.Sends.{Flushes};
ghost use Rattle.flake_base.specs.declared.segment.Seg.{Seg};
ghost use Rattle.flake_base.specs.declared.session.End.{End};
ghost use Rattle.flake_model.specs.Command.{Command as Meaning};
ghost use Rattle.schedule_text.specs.declared.line.Line.TheVariants as asked;
ghost use Rattle.tx_ring.specs.Shown.{device_ring, completed};
ghost use Rattle.transcript_model.specs.Lines.{LineEvent, line_of};
ghost use Rattle.drive_script.specs.Happened.{line_event};
ghost use Rattle.drive_script.specs.Connections.{Fixed, IsDriven, IsConnection, sends_by};
ghost use Rattle.drive_script.specs.Recycled.{Recycles};
ghost use Rattle.drive_script.specs.Running.{RunsOn};
ghost use Rattle.drive_script.specs.Shown.{session_shown, device_shown};

use crate::happened::Happened;
use any_wire::WireCalls;
use command_exec::Shop;
use device_model::{Device, Gathered};
use order_book::BookName;
use pinned_pool::{Pool, PoolName};
use reply_planner::Parcel;
use session_pass::{Session, laws};
use tx_descriptor::Framed;

/// A session, and who gathers its replies.
#[derive(Drop)]
pub struct Connection<N: BookName, P: PoolName + Send>
where
    Parcel<P>: Framed,
{
    pub session: Session<N, P>,
    pub device: Device<P>,
}

impl<N: BookName, P: PoolName + Send> Connection<N, P> {
    /// Gathers the next reply, and puts it on the wire.
    pub fn gather<W: Drop, C: WireCalls<W>>(
        &mut self,
        pool: &Pool<P>,
        wire: W,
        calls: &C,
    ) -> (W, Happened)
        requires calls { C.can_put calls.now × C.can_flush calls.now }
        requires ring { device_ring self.old.device.end ≡ self.old.session.ring }
        ensures ring { device_ring self.new.device.end ≡ self.new.session.ring }
        ensures pass { self.new.session.pass ≡ self.old.session.pass }
        ensures posted { self.new.session.posted ≡ self.old.session.posted }
        ensures answers { (session : ℕ) → line_of (record { session = session; event = line_event result.1 [] [] })
            ≡ asked.Gather session }
        ensures lists { (sent stored : List Seg) → line_event result.1 sent stored ≡ line_event result.1 [] [] }
        ensures flushed { (result.1 ≡ Happened.NothingPosted)
            → (completed self.new.device.end ≡ completed self.old.device.end)
            × Flushes (C.flush_may calls.now) self.old.device.failed self.new.device.failed wire result.0 }
        ensures runs { (given : List Meaning) (end : Option End)
            → RunsOn P.sizes N.sizes.shards given end self.old.session given end self.new.session }
        ensures right { (fixed : Fixed) (start : W) (given : List Meaning) (end : Option End) (events : List LineEvent)
            → IsConnection (sends_by (C.put_may calls.now) (C.flush_may calls.now)) fixed start
            given end events (session_shown P.sizes self.old.session)
            (device_shown self.old.device.failed self.old.device.end) wire
            → IsConnection (sends_by (C.put_may calls.now) (C.flush_may calls.now)) fixed start
            given end (events ++ line_event result.1 [] [] ∷ []) (session_shown P.sizes self.new.session)
            (device_shown self.new.device.failed self.new.device.end) result.0 }
    {
        let (wire, gathered) = self.device.gather(pool, wire, calls);
        laws::both_ends(&mut self.session, &mut self.device);
        let happened = match gathered {
            Gathered::Sent { call, bytes } => Happened::Sent { call, bytes },
            Gathered::Dropped { call, bytes } => Happened::Dropped { call, bytes },
            Gathered::Empty => Happened::NothingPosted,
            Gathered::Closed => unreachable!(),
        };
        (wire, happened)
    }

    /// Gives the oldest gathered reply back.
    pub fn reap(&mut self, shop: &Shop<'_, N, P>) -> Happened
        requires ring { device_ring self.old.device.end ≡ self.old.session.ring }
        ensures ring { device_ring self.new.device.end ≡ self.new.session.ring }
        ensures stage { self.new.session.pass.stage ≡ self.old.session.pass.stage }
        ensures answers { (session : ℕ) → line_of (record { session = session; event = line_event result [] [] })
            ≡ asked.Reap session }
        ensures lists { (sent stored : List Seg) → line_event result sent stored ≡ line_event result [] [] }
        ensures recycles { Recycles result self.old.session self.new.session }
        ensures posted { self.new.session.posted ≡ self.old.session.posted }
        ensures failed { self.new.device.failed ≡ self.old.device.failed }
        ensures runs { (given : List Meaning) (end : Option End)
            → RunsOn P.sizes N.sizes.shards given end self.old.session given end self.new.session }
        ensures right { (fixed : Fixed) (given : List Meaning) (end : Option End) (whole : ℕ) (events : List LineEvent)
            → IsDriven fixed given end whole events (session_shown P.sizes self.old.session)
            (device_shown self.old.device.failed self.old.device.end)
            → IsDriven fixed given end whole (events ++ line_event result [] [] ∷ [])
            (session_shown P.sizes self.new.session) (device_shown self.new.device.failed self.new.device.end) }
    {
        let reaped = self.session.reap_one(shop);
        laws::both_ends(&mut self.session, &mut self.device);
        match reaped {
            Some(reaped) => Happened::Reaped {
                call: reaped.call,
                recycled: reaped.recycled,
            },
            None => Happened::NothingReaped,
        }
    }
}
