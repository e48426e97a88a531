//! What is known of both ends of a ring when both are at hand.
ghost use Rattle.std.specs.Prelude.{◌≡◌, length, false};
ghost use Rattle.tx_ring.specs.InDescriptors.{WordsAreDescriptors};
ghost use Rattle.tx_ring.specs.PlayKinds.{PlaysAreKinds};
ghost use Rattle.tx_ring.specs.Plays.{InOrder};
ghost use Rattle.tx_ring.specs.Runs.{RingViewsCountRuns};
ghost use Rattle.tx_ring.specs.Shown.{driver_ring, driver_view, posted, device_ring, device_view, completed, ended};
ghost use Rattle.tx_ring.specs.Shown.{IsResting};
ghost use Rattle.tx_ring.specs.StepKinds.{StepsKeepRings};

use crate::compare::compare;
use crate::device::DeviceEnd;
use crate::driver::Driver;
use tx_descriptor::Framed;

/// The driver reaped a prefix of what the device completed, and that is a prefix of what the driver posted.
/// Both ends are told how far the other is, and their lists stay.
pub fn both_ends<P: Framed>(driver: &mut Driver<P>, end: &mut DeviceEnd<P>)
    requires { (device_ring end.old ≡ driver_ring driver.old) × IsResting end.old }
    ensures ring { (driver_ring driver.new ≡ driver_ring driver.old)
        × (device_ring end.new ≡ device_ring end.old) }
    ensures order { InOrder (driver_view driver.old) (device_view end.old) × (ended end.old ≡ false) }
    ensures driver { driver_view driver.new ≡ record (driver_view driver.old) { told = length (completed end.old) } }
    ensures device { device_view end.new ≡ record (device_view end.old) { told = length (posted driver.old) } }
    ensures rest { IsResting end.new }
{
    compare(&driver.table, &mut driver.cursor.seat, &mut end.cursor.seat);
}

/// What stands in a ring's words between any two steps: the descriptors of the posted frames that were not reaped,
/// each in its place, with DD in the last one of each frame that is completed and in no other.
pub fn words_are_descriptors<P: Framed>()
    ensures { WordsAreDescriptors P.segs }
{}

/// Each play is of its kind: only a look at the oldest frame's status without DD is a miss, only one that finds the
/// tail at the head is a blank, and only one that finds the closed word set tells of the ring's end.
pub fn plays_are_kinds<P: Framed>()
    ensures { PlaysAreKinds P.segs }
{}

/// Each kind of step keeps the rule.
pub fn steps_keep_rings<P: Framed>()
    ensures { StepsKeepRings P.segs }
{}

/// After any steps from the opening on, a driver's misses are the looks that found no DD, a device's blanks those that
/// found the tail at the head, and the device knows of the closing exactly where a look found the closed word set.
pub fn runs_are_told<P: Framed>()
    ensures { RingViewsCountRuns P.segs }
{}
