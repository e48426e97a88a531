//! Commands from sources, and how often these are read.
ghost use Rattle.std.specs.Prelude.{Some, refl};
ghost use Rattle.flake_base.specs.MemorySource.{whole_of, at_end, nothing_left};

use crate::checks::{equal, holds};
use command_pump::Pump;
use flake_base::{Bytes, End, Failed, Fails, Memory, MemorySource, Source};
use std::alloc::Global;
use std::process::Abort;
use std::test::Fail;

/// Counts the reads of a source, and keeps the longest room.
#[derive(Drop)]
struct CountedSource {
    source: MemorySource,
    reads: u64,
    longest: usize,
}

impl Source for CountedSource {
    ghost name = { λ s. s.source.name };

    ghost whole = { λ s. Some (whole_of s.source) };

    ghost given = { λ s. s.source.given };

    ghost ended = { λ s. at_end s.source };

    ghost read_faults = { λ s. s.source.faults };

    fn read(&mut self, room: &mut [u8]) -> Result<usize, Failed> {
        self.reads = self.reads.saturating_add(1);
        self.longest = self.longest.max(room.len());
        self.source.read(room)
    }

    ghost front = { λ s. (s.source.left, refl, nothing_left s.source.ended s.source.left) };
}

fn counted(alloc: Global, input: &[u8]) -> Result<Pump<CountedSource>, Memory> {
    let bytes = Bytes::from_slice(alloc, input)?;
    let source = CountedSource {
        source: MemorySource::new(bytes, 1_000_000, Fails::new(alloc)),
        reads: 0,
        longest: 0,
    };
    Ok(Pump::new(alloc, source))
}

/// What a pump came to.
#[derive(Drop)]
struct Outcome {
    commands: usize,
    /// What each further call answered, in which there is no command.
    ends: Vec<Option<End>>,
    taken: u64,
    reads: u64,
    longest: usize,
}

// The only call of `next`. It has no clauses, so that no assertion carries those of `next`.
fn next_end(pump: &mut Pump<CountedSource>) -> Option<End> {
    match pump.next() {
        Ok(_) => None,
        Err(end) => Some(end),
    }
}

// Takes so many commands, and asks so often for one more.
fn pumped(alloc: Global, input: &[u8], commands: usize, asks: usize) -> Result<Outcome, Fail> {
    let mut pump = counted(alloc, input)?;
    let mut given = 0usize;
    for _ in 0..commands {
        if next_end(&mut pump).is_none() {
            given = given.saturating_add(1);
        }
    }
    let mut ends = Vec::new(alloc);
    for _ in 0..asks {
        ends.push(next_end(&mut pump))?;
    }
    let taken = pump.taken();
    let source = pump.into_source();
    Ok(Outcome {
        commands: given,
        ends,
        taken,
        reads: source.reads,
        longest: source.longest,
    })
}

// The end comes behind so many commands, after so many reads, and again without any.
fn check_end(
    rt: &impl Abort,
    alloc: Global,
    input: &[u8],
    commands: usize,
    end: End,
    counts: (u64, u64),
) -> Result<(), Fail> {
    for asks in 1..=3 {
        let found = pumped(alloc, input, commands, asks)?;
        equal(rt, "commands", found.commands, commands);
        equal(rt, "ends", found.ends.len(), asks);
        holds(rt, "each end", found.ends.iter().all(|it| *it == Some(end)));
        equal(rt, "bytes and reads", (found.taken, found.reads), counts);
        equal(rt, "the longest room", found.longest, 4096);
    }
    Ok(())
}

#[test]
fn reads_are_of_at_most_4096_bytes(rt: HostRuntime) -> Result<(), Fail> {
    let mut pings = Bytes::new(rt.alloc());
    for _ in 0..715 {
        pings.append(b"*1\r\n$4\r\nPING\r\n")?;
    }
    check_end(
        &rt,
        rt.alloc(),
        pings.as_slice(),
        715,
        End::Clean,
        (10_010, 4),
    )
}

#[test]
fn an_error_is_answered_once(rt: HostRuntime) -> Result<(), Fail> {
    let end = End::Protocol { kind: 3, place: 6 };
    check_end(&rt, rt.alloc(), b"*1\r\n$01\r\n", 1, end, (7, 1))
}
