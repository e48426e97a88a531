// Bytes that wait to be written.
ghost use Rattle.std.specs.Prelude.{◌≡◌, ◌<◌, ◌≤◌, ◌==◌, [], length, IfOk, OnOk, OnErr, MatchBool};
ghost use Rattle.file_outside.specs.Unwritten.{Puts, PutsFront, and_waits};

use crate::again::write_front;
use flake_base::{Failed, Memory, Past};
use std::alloc::Global;
use std::io::Write;
use std::marker::Model;

/// The most bytes that wait.
const ROOM: usize = 262_144;

/// Room for bytes that wait, of which those before `start` are written. What was written in all only contracts see.
#[derive(Drop)]
pub struct Unwritten {
    room: Vec<u8>,
    start: usize,
    written: Past,
}

impl Model for Unwritten {
    ghost use Rattle.std.specs.Prelude.{◌≤◌, ◌-◌, length, drop, vec_capacity};
    ghost use Rattle.file_outside.specs.Unwritten.{Rest};

    ghost Value = { Rest };

    ghost view = { λ u. record {
      waiting = drop u.start u.room.items;
      written = u.written.bytes;
      free = 262144 - length u.room.items;
    } };

    ghost invariant = { λ u. (u.start ≤ length u.room.items)
        × (length u.room.items ≤ 262144) × (262144 ≤ vec_capacity u.room) };
}

impl Unwritten {
    pub fn new(alloc: Global) -> Result<Self, Memory>
        ensures { IfOk result (λ unwritten. unwritten ≡ record { waiting = []; written = []; free = 262144 }) }
    {
        let room = Vec::with_capacity(alloc, ROOM)?;
        Ok(Unwritten {
            room,
            start: 0,
            written: Past::new(),
        })
    }

    pub fn is_empty(&self) -> bool
        ensures { result ≡ (length self.now.waiting == 0) }
    {
        self.start == self.room.len()
    }

    /// Takes a piece: it waits, and what waited before is written where there is no room for both. Of a piece that
    /// isn't taken whole, a front is.
    pub fn put<F: Write>(&mut self, writer: &mut F, piece: &[u8]) -> Result<(), Failed>
        ensures ok { OnOk result (Puts piece.now (F.contents writer.old) self.old (F.contents writer.new) self.new) }
        ensures failed { OnErr result
            (PutsFront piece.now (F.contents writer.old) self.old (F.contents writer.new) self.new) }
    {
        if self.wait(piece) {
            return Ok(());
        }
        self.write_out(writer)?;
        if piece.len() > ROOM {
            return self.write_through(writer, piece);
        }
        self.keep(piece);
        Ok(())
    }

    /// Takes a piece that there is room for, and answers whether there was.
    pub fn wait(&mut self, piece: &[u8]) -> bool
        ensures { MatchBool result (self.new ≡ and_waits self.old piece.now)
            ((self.new ≡ self.old) × (self.old.free < length piece.now)) }
    {
        if piece.len() > self.free() {
            return false;
        }
        self.keep(piece);
        true
    }

    fn free(&self) -> usize
        ensures { result ≡ self.now.free }
    {
        ROOM - self.room.len()
    }

    fn keep(&mut self, piece: &[u8])
        requires { length piece.now ≤ self.old.free }
        ensures { self.new ≡ and_waits self.old piece.now }
    {
        let _ = self.room.extend_from_slice(piece);
    }

    /// Writes what waits. What can't be written still waits.
    pub fn write_out<F: Write>(&mut self, writer: &mut F) -> Result<(), Failed>
        ensures puts { Puts [] (F.contents writer.old) self.old (F.contents writer.new) self.new }
        ensures ok { OnOk result ((self.new.waiting ≡ []) × (self.new.free ≡ 262144)) }
    {
        let count = write_front(writer, &self.room[self.start..]);
        self.written.add(&self.room[self.start..self.start + count]);
        self.start += count;
        if self.start < self.room.len() {
            return Err(Failed);
        }
        self.room.clear();
        self.start = 0;
        Ok(())
    }

    // Writes a piece where nothing waits.
    fn write_through<F: Write>(&mut self, writer: &mut F, piece: &[u8]) -> Result<(), Failed>
        requires { self.old.waiting ≡ [] }
        ensures ok { OnOk result (Puts piece.now (F.contents writer.old) self.old (F.contents writer.new) self.new) }
        ensures failed { OnErr result
            (PutsFront piece.now (F.contents writer.old) self.old (F.contents writer.new) self.new) }
    {
        let count = write_front(writer, piece);
        self.written.add(&piece[..count]);
        if count < piece.len() {
            return Err(Failed);
        }
        Ok(())
    }
}
