// The device.
ghost use Rattle.std.specs.Prelude.{◌≡◌, Some, false, length};
ghost use Rattle.tx_ring.specs.Shown.{closed_ring, closed_view, device_ring, device_view, completed, IsResting};
ghost use Rattle.any_wire.specs.Sends.{Flushes};
ghost use Rattle.device_model.specs.Devices.{CanFrame, Forwards, ForwardsAs, IfIdle, IfTaken, IsFound, PutsAs};
ghost use Rattle.device_model.specs.Devices.{PutsTexts};
ghost use Rattle.device_model.specs.Pieces.{PutsFrames, PutsPieces};

use crate::framing::send_framed;
use crate::gathered::Gathered;
use crate::sending::send_frame;
use any_wire::{MOST_PUT, WireCalls, flush_unless_failed};
use pinned_pool::{Pool, PoolName};
use reply_planner::Parcel;
use tx_descriptor::Framed;
use tx_ring::{ClosedDriver, DeviceEnd, Next};

/// Takes replies out of a ring and puts their bytes on a wire, until a put or a flush fails.
#[derive(Drop)]
pub struct Device<N: PoolName + Send>
where
    Parcel<N>: Framed,
{
    pub(crate) end: DeviceEnd<Parcel<N>>,
    pub(crate) failed: bool,
    // Where a piece is read to before it is put. What it has between two pieces is of no meaning.
    room: [u8; MOST_PUT],
    ghost rest: { IsResting end },
}

impl<N: PoolName + Send> Device<N> {
    pub fn open(end: DeviceEnd<Parcel<N>>) -> Self
        requires { IsResting end }
        ensures { (result.end ≡ end) × (result.failed ≡ false) }
    {
        Device {
            end,
            failed: false,
            room: [0; MOST_PUT],
        }
    }

    /// Whether a put or a flush has failed.
    pub fn failed(&self) -> bool
        ensures { result ≡ self.now.failed }
    {
        self.failed
    }

    /// The device has completed what was posted before its driver closed the ring, and nothing else.
    pub fn settle(&mut self, closed: &mut ClosedDriver<Parcel<N>>)
        requires { device_ring self.old.end ≡ closed_ring closed.old }
        ensures ring { (closed_ring closed.new ≡ closed_ring closed.old)
            × (device_ring self.new.end ≡ device_ring self.old.end) }
        ensures all { (completed self.old.end ≡ (closed_view closed.old).posted)
            × ((closed_view closed.old).reaped ≡ (closed_view closed.old).posted) }
        ensures driver { closed_view closed.new
            ≡ record (closed_view closed.old) { told = length (completed self.old.end) } }
        ensures device { device_view self.new.end
            ≡ record (device_view self.old.end) { told = length (closed_view closed.old).posted } }
        ensures failed { self.new.failed ≡ self.old.failed }
    {
        closed.settle(&mut self.end);
    }

    /// Gathers the next reply and puts it, in pieces of at most 512 bytes. After a call that
    /// failed nothing more is put, and replies are completed still. Where no reply is posted the wire is flushed.
    pub fn gather<W: Drop, C: WireCalls<W>>(
        &mut self,
        pool: &Pool<N>,
        wire: W,
        calls: &C,
    ) -> (W, Gathered)
        requires calls { C.can_put calls.now × C.can_flush calls.now }
        ensures ring { device_ring self.new.end ≡ device_ring self.old.end }
        ensures found { IsFound result.1 self.new.failed self.old.end self.new.end }
        ensures put { IfTaken result.1 (PutsTexts (C.put_may calls.now) self.old.failed self.new.failed
            (completed self.old.end) (completed self.new.end) wire result.0) }
        ensures pieces { IfTaken result.1 (PutsPieces (C.put_may calls.now) N.sizes self.old.failed
            self.new.failed (completed self.old.end) (completed self.new.end) wire result.0) }
        ensures flushed { IfIdle result.1 (Flushes (C.flush_may calls.now) self.old.failed self.new.failed wire
            result.0) }
        ensures forwards { Forwards (C.put_may calls.now) (C.flush_may calls.now) self.old.failed
            self.new.failed (completed self.old.end) (completed self.new.end) wire result.0 }
    {
        match self.end.next() {
            Next::Frame(job) => {
                let mut job = job;
                let call = job.frame().call();
                let (wire, failed, bytes) = send_frame(
                    pool,
                    &mut job,
                    &mut self.room,
                    wire,
                    self.failed,
                    calls,
                );
                self.failed = failed;
                self.end.complete(job);
                if failed {
                    (wire, Gathered::Dropped { call, bytes })
                } else {
                    (wire, Gathered::Sent { call, bytes })
                }
            }
            Next::Empty { .. } => {
                let (wire, failed) = flush_unless_failed(wire, self.failed, calls);
                self.failed = failed;
                (wire, Gathered::Empty)
            }
            Next::Closed => {
                let (wire, failed) = flush_unless_failed(wire, self.failed, calls);
                self.failed = failed;
                (wire, Gathered::Closed)
            }
        }
    }

    /// Gathers the next reply and puts it as frames of at most `mtu` bytes, in pieces of at most 512 bytes; a frame's
    /// header and its first bytes are one piece, and no piece has bytes of two frames. All else is as in
    /// [`Device::gather`]; `bytes` is the text's length.
    pub fn gather_framed<W: Drop, C: WireCalls<W>>(
        &mut self,
        pool: &Pool<N>,
        wire: W,
        mtu: u16,
        calls: &C,
    ) -> (W, Gathered)
        requires calls { C.can_put calls.now × C.can_flush calls.now }
        requires mtu { CanFrame (Some mtu) }
        ensures ring { device_ring self.new.end ≡ device_ring self.old.end }
        ensures found { IsFound result.1 self.new.failed self.old.end self.new.end }
        ensures put { IfTaken result.1 (PutsAs (Some mtu) (C.put_may calls.now) self.old.failed
            self.new.failed (completed self.old.end) (completed self.new.end) wire result.0) }
        ensures frames { IfTaken result.1 (PutsFrames (C.put_may calls.now) mtu self.old.failed
            self.new.failed (completed self.old.end) (completed self.new.end) wire result.0) }
        ensures flushed { IfIdle result.1 (Flushes (C.flush_may calls.now) self.old.failed self.new.failed wire
            result.0) }
        ensures forwards { ForwardsAs (Some mtu) (C.put_may calls.now) (C.flush_may calls.now)
            self.old.failed self.new.failed (completed self.old.end) (completed self.new.end) wire result.0 }
    {
        match self.end.next() {
            Next::Frame(job) => {
                let mut job = job;
                let call = job.frame().call();
                let (wire, failed, bytes) = send_framed(
                    pool,
                    &mut job,
                    &mut self.room,
                    wire,
                    self.failed,
                    mtu,
                    calls,
                );
                self.failed = failed;
                self.end.complete(job);
                if failed {
                    (wire, Gathered::Dropped { call, bytes })
                } else {
                    (wire, Gathered::Sent { call, bytes })
                }
            }
            Next::Empty { .. } => {
                let (wire, failed) = flush_unless_failed(wire, self.failed, calls);
                self.failed = failed;
                (wire, Gathered::Empty)
            }
            Next::Closed => {
                let (wire, failed) = flush_unless_failed(wire, self.failed, calls);
                self.failed = failed;
                (wire, Gathered::Closed)
            }
        }
    }
}
