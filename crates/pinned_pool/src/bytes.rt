//! Runs of bytes in a buffer's data words, 8 to a word.
ghost use Rattle.std.specs.Prelude.{◌≡◌, ◌+◌, ◌*◌, ◌%◌, ◌<◌, ◌≤◌, length, take, drop};
ghost use Rattle.std.specs.Int.{w64, to_le_bytes};
ghost use Rattle.view_sums.specs.Total.{total};
ghost use Rattle.pin_core.specs.Buffers.{buffers, buffer_words};
ghost use Rattle.pin_core.specs.Holding.{at, sole_at};
ghost use Rattle.pinned_pool.specs.Bytes.{bytes_of_words, PutsBytes};
ghost use Rattle.pinned_pool.specs.Rule.{word_at};
ghost use Rattle.pinned_pool.specs.Moves.{front_of};

use crate::hold::Hold;
use crate::name::PoolName;
use crate::pool::Pool;
use crate::seat::PoolSeat;
use std::marker::Brand;

fn whole_word(bytes: &[u8]) -> u64
    requires { length bytes.now ≡ 8 }
    ensures { to_le_bytes w64 result ≡ bytes.now }
{
    u64::from_le_bytes(bytes.try_into().unwrap())
}

// The word that begins with fewer bytes; the others are 0.
fn short_word(bytes: &[u8]) -> u64
    requires { length bytes.now ≤ 8 }
    ensures { take (length bytes.now) (to_le_bytes w64 result) ≡ bytes.now }
{
    let mut word = [0u8; 8];
    word[..bytes.len()].copy_from_slice(bytes);
    u64::from_le_bytes(word)
}

impl<N: PoolName> Pool<N> {
    // Writes eight words, a line. Their number is fixed, so that the compiler lays the stores out one after another.
    fn put_line(
        &self,
        seat: &mut PoolSeat<N>,
        buffer: u32,
        first: usize,
        index: usize,
        bytes: &[u8],
    )
        requires line { length bytes.now ≡ 64 }
        requires first { (buffer < buffers N.sizes) × (first ≡ word_at N.sizes buffer 0) }
        requires exclusive { 0 < total (sole_at buffer) seat.old.holds }
        requires index { (index ≤ length (front_of buffer seat.old.holds))
            × (8 * index + length bytes.now ≤ 8 * buffer_words N.sizes buffer) }
        ensures { PutsBytes buffer index bytes.now seat.old seat.new }
    {
        for k in 0..8 {
            let word = whole_word(&bytes[8 * k..8 * k + 8]);
            self.put_at::<Brand>(seat, buffer, first, index + k, word);
        }
    }

    // Writes whole lines.
    fn put_lines(&self, seat: &mut PoolSeat<N>, hold: &Hold<N>, index: u32, bytes: &[u8])
        requires whole { length bytes.now % 64 ≡ 0 }
        requires exclusive { 0 < total (sole_at hold.now.buffer) seat.old.holds }
        requires index { (index ≤ length (front_of hold.now.buffer seat.old.holds))
            × (8 * index + length bytes.now ≤ 8 * buffer_words N.sizes hold.now.buffer) }
        ensures { PutsBytes hold.now.buffer index bytes.now seat.old seat.new }
    {
        let buffer = hold.buffer();
        let first = self.first_word(buffer);
        let index = index as usize;
        for k in 0..bytes.len() / 64 {
            let line = &bytes[64 * k..64 * k + 64];
            self.put_line(seat, buffer, first, index + 8 * k, line);
        }
    }

    // Writes whole words.
    fn put_words(&self, seat: &mut PoolSeat<N>, hold: &Hold<N>, index: u32, bytes: &[u8])
        requires whole { length bytes.now % 8 ≡ 0 }
        requires exclusive { 0 < total (sole_at hold.now.buffer) seat.old.holds }
        requires index { (index ≤ length (front_of hold.now.buffer seat.old.holds))
            × (8 * index + length bytes.now ≤ 8 * buffer_words N.sizes hold.now.buffer) }
        ensures { PutsBytes hold.now.buffer index bytes.now seat.old seat.new }
    {
        let buffer = hold.buffer();
        let first = self.first_word(buffer);
        let index = index as usize;
        for k in 0..bytes.len() / 8 {
            let word = whole_word(&bytes[8 * k..8 * k + 8]);
            self.put_at::<Brand>(seat, buffer, first, index + k, word);
        }
    }

    // Writes whole words, the most of them in lines.
    fn put_whole(&self, seat: &mut PoolSeat<N>, hold: &Hold<N>, index: u32, bytes: &[u8])
        requires whole { length bytes.now % 8 ≡ 0 }
        requires exclusive { 0 < total (sole_at hold.now.buffer) seat.old.holds }
        requires index { (index ≤ length (front_of hold.now.buffer seat.old.holds))
            × (8 * index + length bytes.now ≤ 8 * buffer_words N.sizes hold.now.buffer) }
        ensures { PutsBytes hold.now.buffer index bytes.now seat.old seat.new }
    {
        let lines = bytes.len() / 64;
        self.put_lines(seat, hold, index, &bytes[..64 * lines]);
        if 64 * lines < bytes.len() {
            let rest = &bytes[64 * lines..];
            self.put_words(seat, hold, index + 8 * lines as u32, rest);
        }
    }

    /// Writes bytes from the word at an index on, 8 to a word, each in a single step. The front ends with the last of
    /// these words; of its bytes behind the last one that was given nothing is said.
    pub fn put_bytes(&self, seat: &mut PoolSeat<N>, hold: &Hold<N>, index: u32, bytes: &[u8])
        requires exclusive { 0 < total (sole_at hold.now.buffer) seat.old.holds }
        requires index { (index ≤ length (front_of hold.now.buffer seat.old.holds))
            × (8 * index + length bytes.now ≤ 8 * buffer_words N.sizes hold.now.buffer) }
        ensures { PutsBytes hold.now.buffer index bytes.now seat.old seat.new }
    {
        let whole = bytes.len() / 8;
        self.put_whole(seat, hold, index, &bytes[..8 * whole]);
        if 8 * whole < bytes.len() {
            let rest = short_word(&bytes[8 * whole..]);
            self.put_word(seat, hold, index + whole as u32, rest);
        }
    }

    // Reads eight words, a line. Their number is fixed, so that the compiler lays the loads out one after another.
    fn load_line(
        &self,
        seat: &mut PoolSeat<N>,
        buffer: u32,
        first: usize,
        index: usize,
        room: &mut [u8],
    )
        requires line { length room.old ≡ 64 }
        requires first { (buffer < buffers N.sizes) × (first ≡ word_at N.sizes buffer 0) }
        requires held { 0 < total (at buffer) seat.old.holds }
        requires inside { 8 * index + length room.old ≤ 8 * length (front_of buffer seat.old.holds) }
        ensures seat { seat.new ≡ seat.old }
        ensures bytes { room.new
            ≡ take (length room.old) (drop (8 * index) (bytes_of_words (front_of buffer seat.old.holds))) }
    {
        seat.is_seat();
        for k in 0..8 {
            let word = self.load_from::<Brand>(seat, buffer, first, index + k);
            room[8 * k..8 * k + 8].copy_from_slice(&word.to_le_bytes());
        }
    }

    // Reads whole lines.
    fn load_lines(&self, seat: &mut PoolSeat<N>, buffer: u32, index: u32, room: &mut [u8])
        requires whole { length room.old % 64 ≡ 0 }
        requires held { 0 < total (at buffer) seat.old.holds }
        requires inside { 8 * index + length room.old ≤ 8 * length (front_of buffer seat.old.holds) }
        ensures seat { seat.new ≡ seat.old }
        ensures bytes { room.new
            ≡ take (length room.old) (drop (8 * index) (bytes_of_words (front_of buffer seat.old.holds))) }
    {
        seat.is_seat();
        let first = self.first_word(buffer);
        let index = index as usize;
        for k in 0..room.len() / 64 {
            let line = &mut room[64 * k..64 * k + 64];
            self.load_line(seat, buffer, first, index + 8 * k, line);
        }
    }

    // Reads whole words.
    fn load_words(&self, seat: &mut PoolSeat<N>, buffer: u32, index: u32, room: &mut [u8])
        requires whole { length room.old % 8 ≡ 0 }
        requires held { 0 < total (at buffer) seat.old.holds }
        requires inside { 8 * index + length room.old ≤ 8 * length (front_of buffer seat.old.holds) }
        ensures seat { seat.new ≡ seat.old }
        ensures bytes { room.new
            ≡ take (length room.old) (drop (8 * index) (bytes_of_words (front_of buffer seat.old.holds))) }
    {
        seat.is_seat();
        let first = self.first_word(buffer);
        let index = index as usize;
        for k in 0..room.len() / 8 {
            let word = self.load_from::<Brand>(seat, buffer, first, index + k);
            room[8 * k..8 * k + 8].copy_from_slice(&word.to_le_bytes());
        }
    }

    // Reads whole words, the most of them in lines.
    fn load_whole(&self, seat: &mut PoolSeat<N>, buffer: u32, index: u32, room: &mut [u8])
        requires whole { length room.old % 8 ≡ 0 }
        requires held { 0 < total (at buffer) seat.old.holds }
        requires inside { 8 * index + length room.old ≤ 8 * length (front_of buffer seat.old.holds) }
        ensures seat { seat.new ≡ seat.old }
        ensures bytes { room.new
            ≡ take (length room.old) (drop (8 * index) (bytes_of_words (front_of buffer seat.old.holds))) }
    {
        seat.is_seat();
        let lines = room.len() / 64;
        self.load_lines(seat, buffer, index, &mut room[..64 * lines]);
        if 64 * lines < room.len() {
            self.load_words(
                seat,
                buffer,
                index + 8 * lines as u32,
                &mut room[64 * lines..],
            );
        }
    }

    // Reads bytes of one word.
    fn load_part(
        &self,
        seat: &mut PoolSeat<N>,
        buffer: u32,
        index: u32,
        from: usize,
        room: &mut [u8],
    )
        requires part { from + length room.old ≤ 8 }
        requires held { 0 < total (at buffer) seat.old.holds }
        requires inside { index < length (front_of buffer seat.old.holds) }
        ensures seat { seat.new ≡ seat.old }
        ensures bytes { room.new
            ≡ take (length room.old) (drop (8 * index + from) (bytes_of_words (front_of buffer seat.old.holds))) }
    {
        let word = self.load_at(seat, buffer, index).to_le_bytes();
        room.copy_from_slice(&word[from..from + room.len()]);
    }

    // Reads bytes from a word's first one on.
    #[inline(always)]
    fn load_aligned(&self, seat: &mut PoolSeat<N>, buffer: u32, index: u32, room: &mut [u8])
        requires held { 0 < total (at buffer) seat.old.holds }
        requires inside { 8 * index + length room.old ≤ 8 * length (front_of buffer seat.old.holds) }
        ensures seat { seat.new ≡ seat.old }
        ensures bytes { room.new
            ≡ take (length room.old) (drop (8 * index) (bytes_of_words (front_of buffer seat.old.holds))) }
    {
        seat.is_seat();
        let whole = room.len() / 8;
        self.load_whole(seat, buffer, index, &mut room[..8 * whole]);
        if 8 * whole < room.len() {
            self.load_part(
                seat,
                buffer,
                index + whole as u32,
                0,
                &mut room[8 * whole..],
            );
        }
    }

    /// Reads bytes of the front of a buffer that the seat holds, from an offset on, into the whole room. Each word is
    /// loaded in a single step.
    #[inline(always)]
    pub fn load_bytes(&self, seat: &mut PoolSeat<N>, buffer: u32, from: u32, room: &mut [u8])
        requires held { 0 < total (at buffer) seat.old.holds }
        requires inside { from + length room.old ≤ 8 * length (front_of buffer seat.old.holds) }
        ensures seat { seat.new ≡ seat.old }
        ensures bytes { room.new ≡ take (length room.old)
            (drop from (bytes_of_words (front_of buffer seat.old.holds))) }
    {
        let index = from / 8;
        let skipped = from as usize % 8;
        if skipped == 0 {
            self.load_aligned(seat, buffer, index, room);
        } else if room.len() <= 8 - skipped {
            self.load_part(seat, buffer, index, skipped, room);
        } else {
            let head = 8 - skipped;
            self.load_part(seat, buffer, index, skipped, &mut room[..head]);
            self.load_aligned(seat, buffer, index + 1, &mut room[head..]);
        }
    }
}
