ghost use Rattle.std.specs.Prelude.{◌≡◌, ◌≤◌, ◌+◌, [], length, IfOk, OnOk, OnErr, true, false};
ghost use Rattle.flake_base.specs.Causes.{HasCause};
ghost use Rattle.flake_base.specs.Growth.{Grew};
ghost use Rattle.file_outside.specs.Unwritten.{put_of};

use crate::unwritten::Unwritten;
use flake_base::{Failed, Memory, Wire};
use std::alloc::Global;
use std::fs;
use std::rt::Files;

/// A file that is made at the first put. Up to 256 KiB wait for a flush.
#[derive(Drop)]
pub struct FileWire<R: Files> {
    rt: R,
    name: String,
    file: Option<R::File>,
    unwritten: Unwritten,
    put_faults: u64,
    flush_faults: u64,
}

impl<R: Files + Drop> FileWire<R> {
    pub fn new(rt: R, alloc: Global, name: String) -> Result<Self, Memory>
        ensures { IfOk result (λ wire. put_of wire.unwritten ≡ []) }
    {
        let unwritten = Unwritten::new(alloc)?;
        Ok(FileWire {
            rt,
            name,
            file: None,
            unwritten,
            put_faults: 0,
            flush_faults: 0,
        })
    }

    /// How often a put failed.
    pub fn put_faults(&self) -> u64
        ensures { result ≡ self.now.put_faults }
    {
        self.put_faults
    }

    /// How often a flush failed.
    pub fn flush_faults(&self) -> u64
        ensures { result ≡ self.now.flush_faults }
    {
        self.flush_faults
    }

    // Takes the file out, which is made now if it wasn't.
    fn take_file(&mut self) -> Result<R::File, Failed>
        ensures unwritten { self.new.unwritten ≡ self.old.unwritten }
        ensures put_faults { self.new.put_faults ≡ self.old.put_faults }
        ensures flush_faults { self.new.flush_faults ≡ self.old.flush_faults }
    {
        match self.file.take() {
            Some(file) => Ok(file),
            None => fs::create(&self.rt, self.name.as_str()).map_err(|_| Failed),
        }
    }

    // Puts a piece into the room, before which the file is made.
    fn keep(&mut self, piece: &[u8]) -> Result<(), Failed>
        ensures ok { OnOk result
            (Grew false piece.now (put_of self.old.unwritten) (put_of self.new.unwritten)) }
        ensures failed { OnErr result
            (Grew true piece.now (put_of self.old.unwritten) (put_of self.new.unwritten)) }
        ensures kept { length self.new.unwritten.waiting ≤ length self.old.unwritten.waiting + length piece.now }
        ensures put_faults { self.new.put_faults ≡ self.old.put_faults }
        ensures flush_faults { self.new.flush_faults ≡ self.old.flush_faults }
    {
        let mut file = self.take_file()?;
        let done = self.unwritten.put(&mut file, piece);
        self.file = Some(file);
        done
    }

    // A put for which the file is made, or what waits is written. It stands apart, so that the others take few steps.
    #[inline(never)]
    fn put_further(&mut self, piece: &[u8]) -> Result<(), Failed>
        ensures ok { OnOk result
            (Grew false piece.now (put_of self.old.unwritten) (put_of self.new.unwritten)) }
        ensures failed { OnErr result
            (Grew true piece.now (put_of self.old.unwritten) (put_of self.new.unwritten)) }
        ensures kept { length self.new.unwritten.waiting ≤ length self.old.unwritten.waiting + length piece.now }
        ensures cause { HasCause self.old.put_faults self.new.put_faults result }
        ensures flush_faults { self.new.flush_faults ≡ self.old.flush_faults }
    {
        let done = self.keep(piece);
        self.put_faults = faults_after(self.put_faults, &done);
        done
    }

    // A wire that keeps nothing back makes no file.
    fn write_out(&mut self) -> Result<(), Failed>
        ensures ok { OnOk result (self.new.unwritten.waiting ≡ []) }
        ensures put { put_of self.new.unwritten ≡ put_of self.old.unwritten }
        ensures kept { length self.new.unwritten.waiting ≤ length self.old.unwritten.waiting }
        ensures put_faults { self.new.put_faults ≡ self.old.put_faults }
        ensures flush_faults { self.new.flush_faults ≡ self.old.flush_faults }
    {
        if self.unwritten.is_empty() {
            return Ok(());
        }
        let mut file = self.take_file()?;
        let done = self.unwritten.write_out(&mut file);
        self.file = Some(file);
        done
    }
}

// The count of faults once this call was made, which failed or not.
fn faults_after(faults: u64, done: &Result<(), Failed>) -> u64
    ensures { HasCause faults result done.now }
{
    if done.is_err() {
        return faults.saturating_add(1);
    }
    faults
}

impl<R: Files + Send + Drop> Wire for FileWire<R>
where
    R::File: Send,
{
    ghost use Rattle.file_outside.specs.Unwritten.{put_of};

    ghost wire_told = { λ w. record {
      put = put_of w.unwritten;
      kept = length w.unwritten.waiting;
      put_faults = w.put_faults;
      flush_faults = w.flush_faults;
    } };

    fn put(&mut self, piece: &[u8]) -> Result<(), Failed> {
        if self.file.is_some() && self.unwritten.wait(piece) {
            return Ok(());
        }
        self.put_further(piece)
    }

    fn flush(&mut self) -> Result<(), Failed> {
        let done = self.write_out();
        self.flush_faults = faults_after(self.flush_faults, &done);
        done
    }

    fn shown(&self) -> Option<&[u8]> {
        None
    }
}
