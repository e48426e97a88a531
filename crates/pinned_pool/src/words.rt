//! The data words of a buffer, under a hold.
ghost use Rattle.std.specs.Prelude.{◌≡◌, ◌+◌, ◌<◌, ◌≤◌, length, slice_index};
ghost use Rattle.view_sums.specs.Total.{total};
ghost use Rattle.pin_core.specs.Buffers.{buffers, buffer_words};
ghost use Rattle.pin_core.specs.Holding.{at, sole_at};
ghost use Rattle.pinned_pool.specs.Rule.{word_at};
ghost use Rattle.pinned_pool.specs.Moves.{put, front_of};

use crate::hold::Hold;
use crate::name::PoolName;
use crate::pool::Pool;
use crate::seat::PoolSeat;
use std::marker::Brand;

impl<N: PoolName> Pool<N> {
    /// Where a buffer's first data word stands in the table.
    pub(crate) fn first_word(&self, buffer: u32) -> usize
        requires { buffer < buffers N.sizes }
        ensures { result ≡ word_at N.sizes buffer 0 }
    {
        let buffer = buffer as usize;
        let small = self.small as usize;
        let large = self.large as usize;
        let before = if buffer < small {
            64 * buffer
        } else {
            64 * small + 512 * (buffer - small)
        };
        small + large + before
    }

    /// Writes the front's next word, or an earlier one, after which the front ends.
    pub fn put_word(&self, seat: &mut PoolSeat<N>, hold: &Hold<N>, index: u32, word: u64)
        requires exclusive { 0 < total (sole_at hold.now.buffer) seat.old.holds }
        requires index { (index ≤ length (front_of hold.now.buffer seat.old.holds))
            × (index < buffer_words N.sizes hold.now.buffer) }
        ensures { seat.new ≡ put hold.now.buffer index word seat.old }
    {
        let buffer = hold.buffer();
        let first = self.first_word(buffer);
        self.put_at::<Brand>(seat, buffer, first, index as usize, word);
    }

    /// A word of the front of a buffer that the seat holds.
    pub fn load_at(&self, seat: &mut PoolSeat<N>, buffer: u32, index: u32) -> u64
        requires held { 0 < total (at buffer) seat.old.holds }
        requires index { index < length (front_of buffer seat.old.holds) }
        ensures { (seat.new ≡ seat.old) × (result ≡ slice_index (front_of buffer seat.old.holds) index) }
    {
        seat.is_seat();
        let first = self.first_word(buffer);
        self.load_from::<Brand>(seat, buffer, first, index as usize)
    }

    /// A word of the hold's front.
    pub fn load_word(&self, seat: &mut PoolSeat<N>, hold: &Hold<N>, index: u32) -> u64
        requires held { 0 < total (at hold.now.buffer) seat.old.holds }
        requires index { index < length (front_of hold.now.buffer seat.old.holds) }
        ensures { (seat.new ≡ seat.old) × (result ≡ slice_index (front_of hold.now.buffer seat.old.holds) index) }
    {
        self.load_at(seat, hold.buffer(), index)
    }
}
