ghost use Rattle.std.specs.Prelude.{◌≡◌, ◌+◌, [], length, None, false, IfOk, OnErr, OnOk};

use crate::again::write_front;
use crate::ahead::Ahead;
use crate::source::FileSource;
use flake_base::{Failed, Host, Memory, Past};
use std::alloc::Global;
use std::rt::Files;
use std::{fs, io};

/// Files by their names, and standard output.
#[derive(Drop)]
pub struct FileHost<R> {
    rt: R,
    // For the files that may still be opened.
    rooms: Vec<Ahead>,
    said: Past,
    opens: u64,
    open_faults: u64,
    say_faults: u64,
}

impl<R: Drop> FileHost<R> {
    /// Takes all memory that opens need: room to read ahead of so many files. An open past them fails.
    pub fn new(rt: R, alloc: Global, files: usize) -> Result<Self, Memory>
        ensures { IfOk result (λ host. length host.rooms.items ≡ files) }
    {
        let mut rooms = Vec::with_capacity(alloc, files)?;
        for _ in 0..files {
            rooms.push(Ahead::new(alloc)?)?;
        }
        Ok(FileHost {
            rt,
            rooms,
            said: Past::new(),
            opens: 0,
            open_faults: 0,
            say_faults: 0,
        })
    }

    /// How often an open was called.
    pub fn opens(&self) -> u64
        ensures { result ≡ self.now.opens }
    {
        self.opens
    }

    /// How often an open failed.
    pub fn open_faults(&self) -> u64
        ensures { result ≡ self.now.open_faults }
    {
        self.open_faults
    }

    /// How often a say failed.
    pub fn say_faults(&self) -> u64
        ensures { result ≡ self.now.say_faults }
    {
        self.say_faults
    }
}

impl<R: Files + Drop> FileHost<R> {
    // A file that doesn't open takes no room.
    fn source(&mut self, name: &str) -> Result<FileSource<R::File>, Failed>
        ensures named { IfOk result (λ source. source.name.bytes ≡ name.now) }
        ensures unread { IfOk result (λ source. source.given.bytes ≡ []) }
        ensures open { IfOk result (λ source. source.ended ≡ false) }
        ensures fresh { IfOk result (λ source. source.faults ≡ 0) }
        ensures room { OnOk result (length self.old.rooms.items ≡ length self.new.rooms.items + 1) }
        ensures kept { OnErr result (length self.old.rooms.items ≡ length self.new.rooms.items) }
        ensures opens { self.new.opens ≡ self.old.opens }
        ensures open_faults { self.new.open_faults ≡ self.old.open_faults }
        ensures said { self.new.said ≡ self.old.said }
        ensures say_faults { self.new.say_faults ≡ self.old.say_faults }
    {
        let Ok(file) = fs::open(&self.rt, name) else {
            return Err(Failed);
        };
        match self.rooms.pop() {
            Some(ahead) => Ok(FileSource::new(name, file, ahead)),
            None => Err(Failed),
        }
    }
}

impl<R: Files + Print + Drop> Host for FileHost<R>
where
    R::File: Send,
{
    type In = FileSource<R::File>;

    ghost host_told = { λ h. record {
      holds = λ _. None;
      opens = h.opens;
      open_faults = λ _. h.open_faults;
      said = h.said.bytes;
      say_faults = h.say_faults;
    } };

    fn open(&mut self, name: &str) -> Result<FileSource<R::File>, Failed> {
        self.opens = self.opens.saturating_add(1);
        let source = self.source(name);
        if source.is_err() {
            self.open_faults = self.open_faults.saturating_add(1);
        }
        source
    }

    fn say(&mut self, piece: &[u8]) -> Result<(), Failed> {
        let count = write_front(&mut io::writer(&self.rt), piece);
        self.said.add(&piece[..count]);
        if count < piece.len() {
            self.say_faults = self.say_faults.saturating_add(1);
            return Err(Failed);
        }
        Ok(())
    }
}
