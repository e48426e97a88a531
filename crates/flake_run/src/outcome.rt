ghost use Rattle.std.specs.Prelude.{◌≡◌, ◌<◌, length};
ghost use Rattle.flake_run.specs.Said.{unopened_text};

use flake_base::{Ends, Journal, Wire};
use pin_core::Held;
use pinned_pool::PoolEnd;
use serve_inputs::DumpEnd;
use std::alloc::Global;

/// A source that was opened, by its file's number among the words, from 0.
#[derive(Drop)]
pub struct Opened<S> {
    pub file: u16,
    pub source: S,
}

/// What a status is about.
#[derive(Clone, Copy, Debug, PartialEq, Eq)]
pub enum Detail {
    Nothing,
    File(u16),
    /// A line, counted from 1.
    Line(u64),
    /// The first byte that isn't the one that a journal gives. `None` stands for the end of a text.
    Differs {
        session: u16,
        place: u64,
        expected: Option<u8>,
        found: Option<u8>,
    },
    /// The first place of a journal that isn't in order.
    Journal {
        shard: u16,
        place: u64,
    },
    /// The first frame that is refused, counted from 1.
    Frame(u64),
    /// The least frame that is missing.
    Missing {
        call: u32,
        frame: u32,
    },
}

/// All was served.
pub const SERVED: u8 = 0;

/// The input isn't whole requests, or is too long.
pub const BAD_SESSION: u8 = 3;

/// A read of the input failed.
pub const READ_FAULT: u8 = 4;

/// A put on a wire, or what was to be said, failed.
pub const WRITE_FAULT: u8 = 5;

pub const OUT_OF_MEMORY: u8 = 6;

/// A line or a frame that isn't of its form.
pub const BAD_LINE: u8 = 7;

/// Replies that aren't those of the journal, a journal that isn't in order, or a frame that is missing.
pub const NOT_THE_SAME: u8 = 8;

/// A file that has more bytes than it may.
pub const TOO_LARGE: u8 = 9;

/// Why nothing was served.
#[derive(Clone, Copy, Debug, PartialEq, Eq)]
pub enum Refusal {
    BadWords,
    /// The file of this number did not open.
    OpenFault(u16),
    Memory,
}

impl Refusal {
    ghost use Rattle.std.specs.Prelude.{◌≡◌, ◌<◌, length};
    ghost use Rattle.flake_run.specs.Refusals.{IsNumbered, status_of, detail_of, refusal_text};

    pub fn status(self) -> u8
        ensures { result ≡ status_of self }
    {
        match self {
            Refusal::BadWords => 1,
            Refusal::OpenFault(_) => 2,
            Refusal::Memory => OUT_OF_MEMORY,
        }
    }

    pub fn detail(self) -> Detail
        ensures { result ≡ detail_of self }
    {
        match self {
            Refusal::OpenFault(file) => Detail::File(file),
            Refusal::BadWords | Refusal::Memory => Detail::Nothing,
        }
    }

    pub fn text(self) -> &'static str
        requires { IsNumbered self }
        ensures text { result.now ≡ refusal_text self }
        ensures some { 0 < length result.now }
    {
        match self {
            Refusal::BadWords => "bad words\n",
            Refusal::OpenFault(file) => unopened_text(file),
            Refusal::Memory => "out of memory\n",
        }
    }
}

// Needs no memory.
fn unopened_text(file: u16) -> &'static str
    requires { file < 16 }
    ensures text { result.now ≡ unopened_text (Detail.File file) }
    ensures some { 0 < length result.now }
{
    match file {
        0 => "cannot open 0\n",
        1 => "cannot open 1\n",
        2 => "cannot open 2\n",
        3 => "cannot open 3\n",
        4 => "cannot open 4\n",
        5 => "cannot open 5\n",
        6 => "cannot open 6\n",
        7 => "cannot open 7\n",
        8 => "cannot open 8\n",
        9 => "cannot open 9\n",
        10 => "cannot open 10\n",
        11 => "cannot open 11\n",
        12 => "cannot open 12\n",
        13 => "cannot open 13\n",
        14 => "cannot open 14\n",
        15 => "cannot open 15\n",
        _ => unreachable!(),
    }
}

/// What a run has done.
#[derive(Drop)]
pub struct Outcome<S> {
    pub status: u8,
    pub detail: Detail,
    /// How each session ended, in the order of the files; empty where nothing was served.
    pub ends: Ends,
    /// What each shard did, in order; empty where nothing was served.
    pub journal: Journal,
    /// How many buffers of the pool are held by values; none where nothing was served.
    pub held: Held,
    /// The closed pool; none where nothing was served.
    pub pool: Option<PoolEnd>,
    /// What came of the dump; none where none was asked for.
    pub dump: DumpEnd,
    /// Every source that was opened, in the order of the words.
    pub sources: Vec<Opened<S>>,
    /// All wires, at their places.
    pub wires: Vec<Box<dyn Wire>>,
}

impl<S> Outcome<S> {
    ghost use Rattle.std.specs.Prelude.{◌≡◌, [], None};
    ghost use Rattle.serve_inputs.specs.Dumped.{dump_told, no_dump};
    ghost use Rattle.flake_run.specs.Outcome.{none_held};

    /// An answer without any request that ran.
    pub fn unserved(alloc: Global, status: u8, detail: Detail, wires: Vec<Box<dyn Wire>>) -> Self
        ensures status { result.status ≡ status }
        ensures detail { result.detail ≡ detail }
        ensures ends { result.ends.items ≡ [] }
        ensures journal { result.journal.items ≡ [] }
        ensures held { result.held ≡ none_held }
        ensures pool { result.pool ≡ None }
        ensures dump { dump_told result.dump ≡ no_dump }
        ensures sources { result.sources.items ≡ [] }
        ensures wires { result.wires ≡ wires }
    {
        Outcome {
            status,
            detail,
            ends: Ends::new(alloc),
            journal: Journal::new(alloc),
            held: Held { small: 0, large: 0 },
            pool: None,
            dump: DumpEnd::none(alloc),
            sources: Vec::new(alloc),
            wires,
        }
    }
}
