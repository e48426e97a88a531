//! What is known of a session when its device is at hand too.
ghost use Rattle.std.specs.Prelude.{◌≡◌, false, length};
ghost use Rattle.tx_ring.specs.Changes.{IsPrefix};
ghost use Rattle.session_pass.specs.Ended.{EndsAsItBegan, EndsWithNone};
ghost use Rattle.tx_ring.specs.Shown.{device_ring, device_view, completed, ended};

use crate::session::Session;
use device_model::Device;
use order_book::BookName;
use pinned_pool::PoolName;

/// The session reaped a prefix of what the device completed, and that is a prefix of what the session posted.
pub fn both_ends<N: BookName, P: PoolName + Send>(
    session: &mut Session<N, P>,
    device: &mut Device<P>,
)
    requires { device_ring device.old.end ≡ session.old.ring }
    ensures ring { device_ring device.new.end ≡ device_ring device.old.end }
    ensures order { IsPrefix session.old.reaped (completed device.old.end)
        × IsPrefix (completed device.old.end) session.old.posted × (ended device.old.end ≡ false) }
    ensures session { session.new ≡ record session.old { told = length (completed device.old.end) } }
    ensures device { device_view device.new.end
        ≡ record (device_view device.old.end) { told = length session.old.posted } }
    ensures failed { device.new.failed ≡ device.old.failed }
{
    device_model::laws::both_ends(&mut session.driver, device);
}

/// A seat whose stage was opened for a session, and which the session gave back, has the holds that it had before.
pub fn holds_end_as_they_began()
    ensures { EndsAsItBegan }
{}

/// It has none, where it had none.
pub fn no_hold_is_left()
    ensures { EndsWithNone }
{}
