// Bytes that are read ahead.
ghost use Rattle.std.specs.Prelude.{◌≡◌, ◌≤◌, ◌<◌, ◌++◌, [], length, take, IfOk, OnOk, OnErr};
ghost use Rattle.std.specs.Io.KnownBytes.{Consumes, IsAtEnd, Keeps, prepend_known};

use crate::again::read_again;
use flake_base::{Failed, Memory};
use std::alloc::Global;
use std::io::Read;
use std::marker::Model;

/// The most bytes of one read of a file.
const AHEAD: usize = 65_536;

/// The most bytes that are given at once.
const PIECE: usize = 4096;

/// Room for what is read ahead, and what of it is still to be given.
#[derive(Drop)]
pub struct Ahead {
    room: Vec<u8>,
    start: usize,
    end: usize,
}

impl Model for Ahead {
    ghost use Rattle.std.specs.Prelude.{◌≤◌, ◌<◌, List, ℕ, length, slice_range};

    ghost Value = { List ℕ };

    ghost view = { λ a. slice_range a.room.items a.start a.end };

    ghost invariant = { λ a. (a.start ≤ a.end) × (a.end ≤ length a.room.items) × (0 < length a.room.items) };
}

impl Ahead {
    pub fn new(alloc: Global) -> Result<Self, Memory>
        ensures { IfOk result (λ ahead. ahead ≡ []) }
    {
        let room = vec![in alloc; 0; AHEAD]?;
        Ok(Ahead {
            room,
            start: 0,
            end: 0,
        })
    }

    // Reads ahead, once all was given.
    fn fill<F: Read>(&mut self, file: &mut F) -> Result<(), Failed>
        requires { self.old ≡ [] }
        ensures ok { OnOk result (Keeps (F.remaining file.old) (prepend_known self.new (F.remaining file.new))) }
        ensures end { OnOk result (self.new ≡ [] → IsAtEnd (F.remaining file.new)) }
        ensures failed { OnErr result ((self.new ≡ []) × Keeps (F.remaining file.old) (F.remaining file.new)) }
    {
        let count = read_again(file, self.room.as_mut_slice())?;
        self.start = 0;
        self.end = count;
        Ok(())
    }

    /// Gives the next bytes of what was read ahead, or of the file.
    pub fn read<F: Read>(&mut self, file: &mut F, room: &mut [u8]) -> Result<usize, Failed>
        ensures bound { IfOk result (λ n. n ≤ length room.new) }
        ensures piece { IfOk result (λ n. n ≤ 4096) }
        ensures bytes { IfOk result (λ n. Consumes (prepend_known self.old (F.remaining file.old))
            (prepend_known self.new (F.remaining file.new)) (take n room.new)) }
        ensures end { IfOk result (λ n. n ≡ 0 → 0 < length room.new
            → IsAtEnd (prepend_known self.new (F.remaining file.new))) }
        ensures failed { OnErr result (Keeps (prepend_known self.old (F.remaining file.old))
            (prepend_known self.new (F.remaining file.new))) }
    {
        if self.start == self.end {
            self.fill(file)?;
        }
        Ok(self.give(room))
    }

    // Gives what was read ahead, as far as the room goes.
    fn give(&mut self, room: &mut [u8]) -> usize
        ensures bound { result ≤ length room.new }
        ensures piece { result ≤ 4096 }
        ensures bytes { self.old ≡ take result room.new ++ self.new }
        ensures end { result ≡ 0 → 0 < length room.new → self.new ≡ [] }
    {
        let rest = &self.room[self.start..self.end];
        let count = rest.len().min(room.len()).min(PIECE);
        room[..count].copy_from_slice(&rest[..count]);
        self.start += count;
        count
    }
}
