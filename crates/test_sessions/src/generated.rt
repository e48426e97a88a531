//! Requests that are generated from a number.
use super::common::{Watching, wires_of};
use crate::checks::equal;
use command_line::GenTask;
use flake_base::{Bytes, Source};
use serve_generated::{InputSource, serve_generated};
use session_pass::NoGate;
use std::alloc::Global;
use std::sync::Wait;
use std::test::Fail;
use std::thread::Threads;

// The only call of `serve_generated`: how many replies there are, of how many bytes, and what is held.
fn generated<R: Threads + Wait + Sync>(
    rt: &R,
    alloc: Global,
    task: &GenTask,
) -> Result<String, Fail> {
    let wires = wires_of(alloc, 2, None)?;
    if wires.len() < usize::from(task.sessions) {
        return Err(Fail::from("too few wires"));
    }
    let (sessions, requests, workers) = (task.sessions, task.requests, task.workers);
    if sessions == 0
        || sessions > 16
        || requests == 0
        || requests > 4000
        || workers == 0
        || workers > 16
    {
        return Err(Fail::from("too few or too many"));
    }
    let Ok(served) = serve_generated(rt, alloc, task, wires, &NoGate, &Watching) else {
        return Err(Fail::from("it is refused"));
    };
    let (mut replies, mut bytes, mut on_wires) = (0u64, 0u64, 0usize);
    for ended in served.ends.as_slice() {
        replies = replies.saturating_add(u64::from(ended.replies));
    }
    for sent in served.sent.as_slice() {
        bytes = bytes.saturating_add(*sent);
    }
    for wire in served.wires.as_slice() {
        on_wires = on_wires.saturating_add(wire.wire.sent().len());
    }
    let held = served.pool.held();
    let (small, large) = (held.small, held.large);
    Ok(format!(in alloc; "{replies} replies {bytes} bytes {on_wires} put held {small} {large}")?)
}

// The counts are those of a plain store, as tools/plain has it.
#[test]
fn generated_requests(rt: HostRuntime) -> Result<(), Fail> {
    for (number, sessions, requests, said) in [
        (0, 1, 34, "34 replies 273 bytes 273 put held 6 48"),
        (7, 2, 40, "80 replies 42983 bytes 42983 put held 8 67"),
    ] {
        let task = GenTask {
            number,
            sessions,
            requests,
            workers: 2,
        };
        let told = generated(&rt, rt.alloc(), &task)?;
        equal(&rt, "what is left", told.as_str(), said);
    }
    Ok(())
}

#[test]
fn an_input_is_read_in_pieces(rt: HostRuntime) -> Result<(), Fail> {
    let alloc = rt.alloc();
    let mut source = InputSource::new(Bytes::from_slice(alloc, b"hello world")?);
    let mut room = [0u8; 4];
    for piece in ["hell", "o wo", "rld", "", ""] {
        let given = source.read(&mut room)?;
        equal(&rt, "a piece", str::from_utf8(&room[..given])?, piece);
    }
    Ok(())
}
