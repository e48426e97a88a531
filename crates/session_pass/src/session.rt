// What a session has.
ghost use Rattle.std.specs.Prelude.{◌≡◌, ◌≤◌, [], false, length};
ghost use Rattle.reply_planner.specs.Stages.{stage_size};
ghost use Rattle.tx_ring.specs.Shown.{ring_size, driver_ring, driver_view};
ghost use Rattle.session_pass.specs.Kept.{IsSessionSound, least_ring, greatest_ring, least_credits};
ghost use Rattle.session_pass.specs.Views.{whole_view};

use crate::ready::Ready;
use command_exec::Pass;
use order_book::BookName;
use pinned_pool::PoolName;
use reply_planner::Parcel;
use std::alloc::Global;
use std::marker::Model;
use std::snapshot::Snapshot;
use tx_descriptor::Framed;
use tx_ring::Driver;

/// Makes calls one after another, and posts their replies into a ring. What a reply has of the pass comes back when it
/// is reaped.
#[derive(Drop)]
pub struct Session<N: BookName, P: PoolName + Send>
where
    Parcel<P>: Framed,
{
    pub(crate) number: u16,
    pub(crate) pass: Pass<N, P>,
    // The pass when the session was opened.
    pub(crate) opened: Snapshot<Pass<N, P>>,
    pub(crate) driver: Driver<Parcel<P>>,
    pub(crate) ready: Ready,
    pub(crate) calls: u32,
    pub(crate) stopped: bool,
}

impl<N: BookName, P: PoolName + Send> Model for Session<N, P>
where
    Parcel<P>: Framed,
{
    ghost use Rattle.tx_ring.specs.Shown.{driver_ring, driver_view};
    ghost use Rattle.session_pass.specs.Views.{SessionView, whole_view};
    ghost use Rattle.session_pass.specs.Kept.{IsSessionOf};

    ghost Value = { SessionView };

    ghost view = { λ s. whole_view s.pass s.opened.value.seat (driver_ring s.driver) (driver_view s.driver) s.stopped };

    ghost invariant = { λ s. IsSessionOf s.calls s.number
        (whole_view s.pass s.opened.value.seat (driver_ring s.driver) (driver_view s.driver) s.stopped) };
}

impl<N: BookName, P: PoolName + Send> Session<N, P> {
    /// A session without calls, over a new pass and a new ring. `number` is its number in the book.
    pub fn open(alloc: Global, number: u16, pass: Pass<N, P>, driver: Driver<Parcel<P>>) -> Self
        requires number { number ≡ pass.list.number }
        requires credits { least_credits ≤ pass.seat.credits }
        requires stage { pass.free ≡ pass.stage }
        requires ring { (least_ring ≤ ring_size (driver_ring driver))
            × (ring_size (driver_ring driver) ≤ greatest_ring) }
        requires none { (driver_view driver).posted ≡ [] }
        ensures { result ≡ whole_view pass pass.seat (driver_ring driver) (driver_view driver) false }
    {
        pass.is_pass();
        let _ = driver.room();
        let opened = Snapshot::of(&pass);
        Session {
            number,
            pass,
            opened,
            driver,
            ready: Ready::new(alloc),
            calls: 0,
            stopped: false,
        }
    }

    /// How many replies it has posted.
    pub fn calls(&self) -> u32
        ensures { result ≡ length self.now.posted }
    {
        self.calls
    }

    /// Its number in the book.
    pub fn number(&self) -> u16
        ensures { result ≡ self.now.pass.list.number }
    {
        self.number
    }

    /// Does nothing, and tells a proof what is true of every session.
    pub fn is_session(&self)
        ensures { IsSessionSound self.now }
    {
        let _ = &self.calls;
    }
}
