ghost use Rattle.std.specs.Prelude.{None};

use crate::ahead::Ahead;
use flake_base::{Failed, Past, Source};
use std::io::Read;

/// A file that is read 64 KiB at a time, and given in pieces of at most 4 KiB.
#[derive(Drop)]
pub struct FileSource<F> {
    name: Past,
    file: F,
    ahead: Ahead,
    given: Past,
    ended: bool,
    faults: u64,
}

impl<F> FileSource<F> {
    ghost use Rattle.std.specs.Prelude.{◌≡◌, [], false};

    pub(crate) fn new(name: &str, file: F, ahead: Ahead) -> Self
        ensures named { result.name.bytes ≡ name.now }
        ensures unread { result.given.bytes ≡ [] }
        ensures open { result.ended ≡ false }
        ensures fresh { result.faults ≡ 0 }
    {
        FileSource {
            name: Past::of(name.as_bytes()),
            file,
            ahead,
            given: Past::new(),
            ended: false,
            faults: 0,
        }
    }

    /// How often a read failed.
    pub fn faults(&self) -> u64
        ensures { result ≡ self.now.faults }
    {
        self.faults
    }
}

impl<F: Read> Source for FileSource<F> {
    ghost name = { λ s. s.name.bytes };

    ghost whole = { λ _. None };

    ghost given = { λ s. s.given.bytes };

    ghost ended = { λ s. s.ended };

    ghost read_faults = { λ s. s.faults };

    fn read(&mut self, room: &mut [u8]) -> Result<usize, Failed> {
        let read = self.ahead.read(&mut self.file, room);
        match read {
            Ok(count) => {
                self.given.add(&room[..count]);
                self.ended = count == 0;
            }
            Err(_) => self.faults = self.faults.saturating_add(1),
        }
        read
    }

    ghost front = { λ _. tt };
}
