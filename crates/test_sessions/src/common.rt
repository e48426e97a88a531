//! Sources of requests, wires that are watched, and what is left of sessions as text.
ghost use Rattle.std.specs.Prelude.{◌≡◌, [], IfOk, ⊤};

use any_wire::WireCalls;
use flake_base::{Bytes, End, Fails, Journal, MemorySource, MemoryWire, SessionEnd, Wire};
use pinned_pool::Held;
use std::alloc::Global;
use std::fmt::Write;
use std::test::Fail;

/// A request for each line, of the words between its blanks, and then these bytes. A read gives at most `step`.
pub fn source(alloc: Global, lines: &str, behind: &[u8], step: usize) -> Result<MemorySource, Fail>
    ensures { IfOk result (λ s. s.given ≡ []) }
{
    let mut text = Bytes::new(alloc);
    for line in lines.lines() {
        let count = line.split_whitespace().count();
        text.append(format!(in alloc; "*{count}\r\n")?.as_bytes())?;
        for word in line.split_whitespace() {
            let len = word.len();
            text.append(format!(in alloc; "${len}\r\n{word}\r\n")?.as_bytes())?;
        }
    }
    text.append(behind)?;
    Ok(MemorySource::new(text, step.max(1), Fails::new(alloc)))
}

/// A wire in memory that knows whether a flush came last.
#[derive(Drop)]
pub struct Watched {
    pub wire: MemoryWire,
    pub flushed: bool,
}

/// So many wires. On each the put of this number fails, or none does.
pub fn wires_of(alloc: Global, count: usize, fails: Option<u64>) -> Result<Vec<Watched>, Fail> {
    let mut wires = Vec::new(alloc);
    for _ in 0..count {
        let mut numbers = Fails::with_room(alloc, 1)?;
        if let Some(number) = fails {
            numbers.push(number)?;
        }
        let wire = MemoryWire::new(alloc, 65_536, numbers)?;
        wires.push(Watched {
            wire,
            flushed: false,
        })?;
    }
    Ok(wires)
}

/// How bytes come onto a watched wire; nothing is said of it.
#[derive(Drop)]
pub struct Watching;

impl WireCalls<Watched> for Watching {
    ghost can_put = { λ _. ⊤ };

    ghost can_flush = { λ _. ⊤ };

    ghost put_may = { λ _ _ _ _. ⊤ };

    ghost flush_may = { λ _ _ _. ⊤ };

    fn put(&self, watched: Watched, piece: &[u8]) -> (Watched, bool) {
        let mut watched = watched;
        if piece.is_empty() {
            return (watched, false);
        }
        watched.flushed = false;
        let failed = watched.wire.put(piece).is_err();
        (watched, failed)
    }

    fn flush(&self, watched: Watched) -> (Watched, bool) {
        let mut watched = watched;
        watched.flushed = true;
        let failed = watched.wire.flush().is_err();
        (watched, failed)
    }
}

fn tell_end(text: &mut String, end: End) -> Result<(), Fail> {
    match end {
        End::Clean => text.push_str("clean")?,
        End::Truncated { place } => write!(text, "truncated at {place}")?,
        End::Left => text.push_str("left")?,
        _ => text.push_str("otherwise")?,
    }
    Ok(())
}

/// A line for each session, with what was put on its wire, and one for all.
pub fn tell(
    alloc: Global,
    ends: &[SessionEnd],
    wires: &[Watched],
    journal: &Journal,
    held: Held,
) -> Result<String, Fail> {
    let mut text = String::new(alloc);
    for (ended, wire) in ends.iter().zip(wires) {
        tell_end(&mut text, ended.end)?;
        write!(text, " taken {} replies {}", ended.taken, ended.replies)?;
        text.push_str(if ended.failed { " failed" } else { " whole" })?;
        text.push_str(if wire.flushed {
            " flushed "
        } else {
            " unflushed "
        })?;
        text.push_str(str::from_utf8(wire.wire.sent())?)?;
        text.push_str("\n")?;
    }
    let mut entries = 0usize;
    for history in journal.as_slice() {
        entries = entries.saturating_add(history.len());
    }
    let (wires, shards) = (wires.len(), journal.len());
    write!(
        text,
        "{wires} wires {shards} shards {entries} entries held {} {}",
        held.small, held.large
    )?;
    Ok(text)
}
