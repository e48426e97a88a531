//! Tests of whole runs, over memory.
//!
//! A case is a text: its lines have what is run, and what must come of it (`asked`, `told`). Functions test what no
//! text says: runs at once, wires of their own, a run behind another, and what may come out in two ways.
mod again;
mod alone;
mod asked;
mod beside;
mod checks;
mod commands;
mod driven_faults;
mod dumps;
mod faults;
mod frames;
mod generated;
mod joins;
mod pins;
mod pools;
mod refused;
mod schedules;
mod sessions;
mod together;
mod told;
mod wires;
mod written;

use asked::{contents_of, lines_of, numbers_of, said_of, sent_of, words_of};
use flake_base::{Bytes, CountWire, Fails, Files, MemoryHost, MemoryWire, Wire};
use flake_run::run::run;
use session_pass::{Gate, NoGate};
use std::alloc::Global;
use std::process::Abort;
use std::sync::Wait;
use std::test::Fail;
use std::thread::Threads;
use told::{sent_by, told_by};
use written::{add, written_out};

/// The bytes that a wire has room for.
const WIRE_ROOM: usize = 2_097_152;

/// The bytes that may be said.
const SAY_ROOM: usize = 65_536;

/// What the tests compare of a run, as plain texts, and its wires, for a further run.
#[derive(Drop)]
struct Seen {
    told: String,
    sent: Bytes,
    wires: Vec<Box<dyn Wire>>,
}

// The only call of `run`. It has no clauses, so that nothing else carries those of `run`.
fn ran<R: Threads + Wait + Sync, G: Gate>(
    rt: &R,
    alloc: Global,
    words: &[String],
    host: &mut MemoryHost,
    wires: Vec<Box<dyn Wire>>,
    gate: &G,
) -> Result<Seen, Fail> {
    let outcome = run(rt, alloc, words, host, wires, gate);
    let mut told = told_by(alloc, &outcome)?;
    add(alloc, &mut told, "", host.opens())?;
    told.push_str(" opens\n")?;
    Ok(Seen {
        told,
        sent: sent_by(alloc, outcome.wires.as_slice())?,
        wires: outcome.wires,
    })
}

fn memory_wire(alloc: Global, fails: Fails) -> Result<Box<dyn Wire>, Fail> {
    let wire = MemoryWire::new(alloc, WIRE_ROOM, fails)?;
    let wire: Box<dyn Wire> = Box::new(alloc, wire)?;
    Ok(wire)
}

fn fails_of(alloc: Global, numbers: &[u64]) -> Result<Fails, Fail> {
    let mut fails = Fails::new(alloc);
    for number in numbers {
        fails.push(*number)?;
    }
    Ok(fails)
}

// The puts that fail on a wire, of what the lines of a case say.
fn put_fails(alloc: Global, case: &str, wire: u64) -> Result<Fails, Fail> {
    match numbers_of(alloc, case, "put fails ")?.as_slice() {
        [number, fails @ ..] if *number == wire => fails_of(alloc, fails),
        _ => Ok(Fails::new(alloc)),
    }
}

// The wires of a case: those that keep what is put, and behind them those that only count.
fn wires_of(alloc: Global, case: &str) -> Result<Vec<Box<dyn Wire>>, Fail> {
    let mut wires = Vec::new(alloc);
    for wire in 0..numbers_of(alloc, case, "wires ")?.pop().unwrap_or(3) {
        wires.push(memory_wire(alloc, put_fails(alloc, case, wire)?)?)?;
    }
    for _ in 0..numbers_of(alloc, case, "counted ")?.pop().unwrap_or(0) {
        wires.push(Box::new(alloc, CountWire::new())?)?;
    }
    Ok(wires)
}

// A file is taken out of those of a case.
fn take_file(files: &mut Vec<(String, Bytes)>, place: usize) -> Option<(String, Bytes)> {
    if place < files.len() {
        Some(files.remove(place))
    } else {
        None
    }
}

// A host that has this file before the others: its reads are so long at most, and these of them fail.
fn reading_host(
    alloc: Global,
    first: (String, Bytes),
    others: Vec<(String, Bytes)>,
    step: u64,
    reads: Fails,
    fails: Fails,
) -> Result<MemoryHost, Fail> {
    let mut files = others;
    files.insert(0, first)?;
    let mut host = MemoryHost::new(alloc, Files::from_vec(files), SAY_ROOM, fails)?;
    host.set_reads(0, (step as usize).max(1), reads);
    Ok(host)
}

// The host of a case. At most one file has reads of its own, which then stands first: files are opened by their names.
fn host_of(alloc: Global, case: &str, reads: &[u64]) -> Result<MemoryHost, Fail> {
    let fails = numbers_of(alloc, case, "host fails ")?;
    let files = contents_of(alloc, case, "file ")?;
    if let [place, step, failing @ ..] = reads {
        let mut files = files.into_vec();
        let first = take_file(&mut files, *place as usize).ok_or("no such file")?;
        let failing = fails_of(alloc, failing)?;
        return reading_host(alloc, first, files, *step, failing, fails);
    }
    Ok(MemoryHost::new(alloc, files, SAY_ROOM, fails)?)
}

// Runs what a case asks for over these wires, behind this gate, and checks what comes of it.
fn check_over<R: Abort + Threads + Wait + Sync, G: Gate>(
    rt: &R,
    alloc: Global,
    case: &str,
    last: Option<&str>,
    reads: &[u64],
    wires: Vec<Box<dyn Wire>>,
    gate: &G,
) -> Result<Seen, Fail> {
    let mut host = host_of(alloc, case, reads)?;
    let words = words_of(alloc, case, last)?;
    let seen = ran(rt, alloc, words.as_slice(), &mut host, wires, gate)?;
    check_seen(rt, alloc, case, &host, &seen)?;
    Ok(seen)
}

fn check_seen(
    rt: &impl Abort,
    alloc: Global,
    case: &str,
    host: &MemoryHost,
    seen: &Seen,
) -> Result<(), Fail> {
    let name = lines_of(alloc, case, "case", "case")?;
    assert_eq!(rt; seen.told, lines_of(alloc, case, "told", "both")?, "{name}");
    assert_eq!(rt; host.said(), said_of(alloc, case)?.as_slice(), "{name}");
    assert_eq!(rt;
        seen.sent.as_slice(),
        sent_of(alloc, case)?.as_slice(),
        "{name}"
    );
    Ok(())
}

// A run for each length of the first file's reads.
fn check_steps<R: Abort + Threads + Wait + Sync>(
    rt: &R,
    alloc: Global,
    case: &str,
    last: Option<&str>,
) -> Result<(), Fail> {
    let steps = numbers_of(alloc, case, "steps ")?;
    if steps.is_empty() {
        let reads = numbers_of(alloc, case, "reads ")?;
        let wires = wires_of(alloc, case)?;
        check_over(rt, alloc, case, last, reads.as_slice(), wires, &NoGate)?;
    }
    for step in steps.as_slice() {
        let wires = wires_of(alloc, case)?;
        check_over(rt, alloc, case, last, &[0, *step], wires, &NoGate)?;
    }
    Ok(())
}

// A run for each of the words that a case leaves a choice of.
fn check_case<R: Abort + Threads + Wait + Sync>(
    rt: &R,
    alloc: Global,
    case: &str,
) -> Result<(), Fail> {
    let words = lines_of(alloc, case, "either", "either")?;
    if words.is_empty() {
        return check_steps(rt, alloc, case, None);
    }
    for last in words.as_str().trim_end().split('\n') {
        check_steps(rt, alloc, case, Some(last))?;
    }
    Ok(())
}

// Checks each case of a text, in which an empty line parts them. What stands before the first belongs to each.
fn check<R: Abort + Threads + Wait + Sync>(rt: &R, alloc: Global, text: &str) -> Result<(), Fail> {
    let (shared, cases) = match text.split_once("\n\n") {
        Some((shared, cases)) if !shared.starts_with("case ") => (shared, cases),
        _ => ("", text),
    };
    for case in cases.split("\n\n") {
        let case = format!(in alloc; "{shared}\n{case}")?;
        check_case(rt, alloc, written_out(alloc, case.as_str())?.as_str())?;
    }
    Ok(())
}

// A run of these words over this host and these wires.
fn ran_alone<R: Threads + Wait + Sync>(
    rt: &R,
    alloc: Global,
    words: &str,
    host: &mut MemoryHost,
    wires: Vec<Box<dyn Wire>>,
) -> Result<Seen, Fail> {
    let words = words_of(alloc, "", Some(words))?;
    ran(rt, alloc, words.as_slice(), host, wires, &NoGate)
}
