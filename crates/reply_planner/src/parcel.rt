ghost use Rattle.std.specs.Prelude.{◌≡◌, ◌<◌, length, slice_get, slice_index, Some};
ghost use Rattle.pinned_pool.specs.Moves.{front_of};
ghost use Rattle.reply_planner.specs.Parcels.{HasBytes, HasWord, IsSent};
ghost use Rattle.reply_planner.specs.Places.{buffer_bytes};

use crate::lists::Lists;
use flake_base::Seg;
use pinned_pool::{Pool, PoolName, PoolSeat};
use std::marker::Model;
use tx_descriptor::Framed;

/// A reply as segments, with the holds that keep their bytes.
#[derive(Drop)]
pub struct Parcel<N: PoolName> {
    pub(crate) seat: PoolSeat<N>,
    pub(crate) lists: Box<Lists<N>>,
    pub(crate) call: u32,
}

impl<N: PoolName> Model for Parcel<N> {
    ghost use Rattle.reply_planner.specs.Parcels.{Sent, sent, IsParcelOf};

    ghost Value = { Sent };

    ghost view = { λ p. sent N.sizes p.lists.value.segments.items p.call p.lists.value.pins.items
        p.lists.value.staged.items p.seat.holds };

    ghost invariant = { λ p. IsParcelOf N.sizes p.lists.value.segments.items p.lists.value.pins.items
        p.lists.value.staged.items p.seat };
}

impl<N: PoolName> Parcel<N> {
    /// How many segments it has.
    pub fn count(&self) -> usize
        ensures { result ≡ length self.now.segments }
    {
        self.lists.segments.len()
    }

    pub fn seg(&self, i: usize) -> Seg
        requires { i < length self.now.segments }
        ensures { slice_get self.now.segments i ≡ Some result }
    {
        self.lists.segments[i]
    }

    /// How many bytes its text has.
    pub fn len(&self) -> u64
        ensures { result ≡ length self.now.text }
    {
        self.seat.is_seat();
        let mut sum = 0;
        for seg in &self.lists.segments {
            sum += u64::from(seg.len);
        }
        sum
    }

    /// Which call it replies to.
    pub fn call(&self) -> u32
        ensures { result ≡ self.now.call }
    {
        self.call
    }

    /// Does nothing, and tells a proof that it may be posted and read.
    pub fn is_parcel(&self)
        ensures { IsSent N.sizes self.now }
    {
        self.seat.is_seat();
    }

    /// A word in which a segment has a byte, read under the parcel's own holds.
    pub fn load(&mut self, pool: &Pool<N>, buffer: u32, index: u32) -> u64
        requires { HasWord N.sizes self.old.segments buffer index }
        ensures same { self.new ≡ self.old }
        ensures word { result ≡ slice_index (front_of buffer self.old.holds) index }
    {
        pool.load_at(&mut self.seat, buffer, index)
    }

    /// Bytes of a segment, as many as the room has.
    #[inline(always)]
    pub fn load_bytes(&mut self, pool: &Pool<N>, buffer: u32, from: u32, room: &mut [u8])
        requires { HasBytes N.sizes self.old.segments buffer from (length room.old) }
        ensures same { self.new ≡ self.old }
        ensures bytes { room.new ≡ buffer_bytes self.old.holds buffer from (length room.old) }
    {
        pool.load_bytes(&mut self.seat, buffer, from, room);
    }
}

impl<N: PoolName + Send> Framed for Parcel<N> {
    ghost segs = { λ p. p.segments };

    fn count(&self) -> usize {
        self.lists.segments.len()
    }

    fn seg(&self, i: usize) -> Seg {
        self.lists.segments[i]
    }
}
