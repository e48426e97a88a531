//! Sources that are driven by a schedule, and lines of a transcript.
ghost use Rattle.std.specs.Prelude.{◌≡◌, []};

use super::common::{Watched, Watching, source, tell, wires_of};
use crate::checks::{equal, holds};
use drive_inputs::{drive_inputs, held_line};
use drive_script::LineRoom;
use flake_base::{Fails, Files, MemoryHost, MemorySource};
use pinned_pool::Held;
use run_resources::RunSizes;
use schedule_text::read_schedule;
use std::alloc::Global;
use std::sync::Wait;
use std::test::Fail;

// The only call of `drive_inputs`. It has no other clauses, so that nothing else carries those of the call.
fn driven<R: Wait>(
    rt: &R,
    alloc: Global,
    schedule: &str,
    first: MemorySource,
    second: MemorySource,
    wires: Vec<Watched>,
    host: &mut MemoryHost,
) -> Result<(String, bool), Fail>
    requires unread { (first.given ≡ []) × (second.given ≡ []) }
{
    let mut sources = Vec::new(alloc);
    sources.push(first)?;
    sources.push(second)?;
    let count = sources.len();
    if count == 0 || count > 4 || wires.len() < count {
        return Err(Fail::from("too few or too many"));
    }
    let sizes = RunSizes {
        shards: 3,
        small: 512,
        large: 8,
        ring: 1160,
        threshold: 512,
        dump: None,
        mtu: None,
    };
    let schedule = read_schedule(alloc, schedule.as_bytes(), count as u16)?;
    let lines = schedule.as_slice();
    let Ok(driven) = drive_inputs(rt, alloc, &sizes, lines, sources, wires, host, &Watching) else {
        return Err(Fail::from("memory is wanting"));
    };
    let (ends, wires) = (driven.ends.as_slice(), driven.wires.as_slice());
    let told = tell(alloc, ends, wires, &driven.journal, driven.pool.held())?;
    Ok((told, driven.failed))
}

const SCHEDULE: &str = "call 0\ncall 1\ngather 0\ngather 1\ngather 1\nreap 0\nreap 0\ncall 1\n";

/// Small buffer 256 is the first one behind the sessions' stages.
const LINES: &str = "\
call 0 0 send 1048576:5 store 1179648:1
call 1 0 send 1114112:7
gather 0 0 5
gather 1 0 7
gather 1 empty
reap 0 0 0
reap 0 none
call 1 end
";

const LEFT: &str = "\
left taken 41 replies 1 whole flushed +OK\r\n\n\
clean taken 20 replies 1 whole flushed $1\r\nx\r\n\n\
3 wires 3 shards 2 entries held 1 0";

#[test]
fn two_sources_by_a_schedule(rt: HostRuntime) -> Result<(), Fail> {
    let alloc = rt.alloc();
    let mut host = MemoryHost::new(alloc, Files::new(alloc), 4096, Fails::new(alloc))?;
    let first = source(alloc, "SET a x\nPING\n", b"", 4096)?;
    let second = source(alloc, "GET a\n", b"", 4096)?;
    let wires = wires_of(alloc, 3, None)?;
    let (told, failed) = driven(&rt, alloc, SCHEDULE, first, second, wires, &mut host)?;
    equal(&rt, "the transcript", str::from_utf8(host.said())?, LINES);
    equal(&rt, "what is left", told.as_str(), LEFT);
    holds(&rt, "no failure", !failed);
    Ok(())
}

// In the room that a schedule's lines have.
#[test]
fn lines_of_what_is_held(rt: HostRuntime) -> Result<(), Fail> {
    for (small, large, line) in [
        (4_294_967_295, 10, "held 4294967295 10\n"),
        (0, 3, "held 0 3\n"),
    ] {
        let mut room = LineRoom::new(rt.alloc())?;
        held_line(&mut room.text, Held { small, large });
        equal(&rt, "the line", str::from_utf8(room.text.as_slice())?, line);
    }
    Ok(())
}
