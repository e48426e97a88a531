//! What is known of a device when its driver is at hand too.
ghost use Rattle.std.specs.Prelude.{◌≡◌, ℕ, List, Bool, length, false};
ghost use Rattle.reply_planner.specs.Parcels.{Sent};
ghost use Rattle.tx_ring.specs.Plays.{InOrder};
ghost use Rattle.tx_ring.specs.Shown.{driver_ring, driver_view, posted, device_ring, device_view, completed, ended};
ghost use Rattle.device_model.specs.Devices.{Forwards};

use crate::device::Device;
use any_wire::WireCalls;
use pinned_pool::PoolName;
use reply_planner::Parcel;
use tx_ring::Driver;

/// The driver reaped a prefix of what the device completed, and that is a prefix of what the driver posted.
pub fn both_ends<N: PoolName + Send>(driver: &mut Driver<Parcel<N>>, device: &mut Device<N>)
    requires { device_ring device.old.end ≡ driver_ring driver.old }
    ensures ring { (driver_ring driver.new ≡ driver_ring driver.old)
        × (device_ring device.new.end ≡ device_ring device.old.end) }
    ensures order { InOrder (driver_view driver.old) (device_view device.old.end) × (ended device.old.end ≡ false) }
    ensures driver { driver_view driver.new
        ≡ record (driver_view driver.old) { told = length (completed device.old.end) } }
    ensures device { device_view device.new.end
        ≡ record (device_view device.old.end) { told = length (posted driver.old) } }
    ensures failed { device.new.failed ≡ device.old.failed }
{
    tx_ring::laws::both_ends(driver, &mut device.end);
}

/// What two runs of gathers, one after the other, did to a wire is what one run may do.
pub fn gathers_add_up<W, C: WireCalls<W>>(calls: &C)
    ensures { (failed between now : Bool) (before middle after : List Sent) (old mid new : W)
        → Forwards (C.put_may calls.now) (C.flush_may calls.now) failed between before middle old mid
        → Forwards (C.put_may calls.now) (C.flush_may calls.now) between now middle after mid new
        → Forwards (C.put_may calls.now) (C.flush_may calls.now) failed now before after old new }
{}
