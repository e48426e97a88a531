// What `gen` says, and what `check` says of its journal and replies.
use super::{Seen, ran_alone};
use flake_base::{Bytes, CountWire, Fails, Files, MemoryHost, MemoryWire, Wire};
use request_gen::session_input;
use std::alloc::Global;
use std::process::Abort;
use std::sync::Wait;
use std::test::Fail;
use std::thread::Threads;

/// Words, and what is said of the requests that they ask for. The counts are those of a plain store, as tools/plain has
/// it, which serves the sessions one after another.
const COUNTED: [(&str, &str); 5] = [
    ("gen 7", "requests 4000 bytes 11163281 held 24 76\n"),
    ("gen 7", "requests 4000 bytes 11163281 held 24 76\n"),
    (
        "gen 7 --workers 1",
        "requests 4000 bytes 11163281 held 24 76\n",
    ),
    (
        "gen 7 --sessions 2 --requests 40",
        "requests 80 bytes 42983 held 8 67\n",
    ),
    (
        "gen 0 --sessions 1 --requests 34",
        "requests 34 bytes 273 held 6 48\n",
    ),
];

fn count_wires(alloc: Global, count: usize) -> Result<Vec<Box<dyn Wire>>, Fail> {
    let mut wires: Vec<Box<dyn Wire>> = Vec::new(alloc);
    for _ in 0..count {
        wires.push(Box::new(alloc, CountWire::new())?)?;
    }
    Ok(wires)
}

// Of a generated run no file is opened.
fn check_counted<R: Abort + Threads + Wait + Sync>(
    rt: &R,
    alloc: Global,
    words: &str,
    said: &str,
) -> Result<(), Fail> {
    let mut host = MemoryHost::new(alloc, Files::new(alloc), 4096, Fails::new(alloc))?;
    let seen = ran_alone(rt, alloc, words, &mut host, count_wires(alloc, 4)?)?;
    assert_eq!(rt; host.said(), said.as_bytes(), "{words}");
    let told = seen.told.as_str();
    assert!(rt;
        told.starts_with("status 0\n") && told.ends_with("\n4 wires, 0 opens\n"),
        "{words}"
    );
    Ok(())
}

#[test]
fn counted(rt: HostRuntime) -> Result<(), Fail> {
    for (words, said) in COUNTED {
        check_counted(&rt, rt.alloc(), words, said)?;
    }
    Ok(())
}

// What a session is asked. It is the only call of `session_input`, and has no clauses, so that nothing else carries
// those of `session_input`.
fn asked(alloc: Global, session: u16) -> Result<Bytes, Fail> {
    Ok(session_input(alloc, 7, session.min(15), 40)?)
}

// A run of the two sessions that are asked so.
fn generated<R: Threads + Wait + Sync>(rt: &R, alloc: Global) -> Result<Seen, Fail> {
    let mut host = MemoryHost::new(alloc, Files::new(alloc), 4096, Fails::new(alloc))?;
    let mut wires: Vec<Box<dyn Wire>> = Vec::new(alloc);
    for _ in 0..2 {
        let wire = MemoryWire::new(alloc, 65_536, Fails::new(alloc))?;
        wires.push(Box::new(alloc, wire)?)?;
    }
    ran_alone(
        rt,
        alloc,
        "gen 7 --sessions 2 --requests 40",
        &mut host,
        wires,
    )
}

// The text of the journal among what is told of two sessions.
fn journal_of(alloc: Global, told: &str) -> Result<String, Fail> {
    let (_, behind) = told.split_once("\nshards ").ok_or("no journal")?;
    let (lines, _) = behind.split_once("\n2 wires, ").ok_or("other wires")?;
    Ok(format!(in alloc; "shards {lines}\n")?)
}

fn shown_at(wires: &[Box<dyn Wire>], place: usize) -> Result<&[u8], Fail> {
    Ok(
        wires
            .get(place)
            .ok_or("no such wire")?
            .shown()
            .ok_or("a wire that shows nothing")?,
    )
}

// The files that replies of the two sessions are checked by.
fn check_host(alloc: Global, journal: &[u8], zero: &[u8], one: &[u8]) -> Result<MemoryHost, Fail> {
    let mut files = Files::with_room(alloc, 5)?;
    for (name, bytes) in [("j", journal), ("r0", zero), ("r1", one)] {
        files.push((
            String::from_str(alloc, name)?,
            Bytes::from_slice(alloc, bytes)?,
        ))?;
    }
    for (name, session) in [("i0", 0), ("i1", 1)] {
        files.push((String::from_str(alloc, name)?, asked(alloc, session)?))?;
    }
    Ok(MemoryHost::new(alloc, files, 4096, Fails::new(alloc))?)
}

// Checks the files of such a host.
fn check_verdict<R: Abort + Threads + Wait + Sync>(
    rt: &R,
    alloc: Global,
    host: &mut MemoryHost,
    status: &str,
    said: &str,
) -> Result<(), Fail> {
    let seen = ran_alone(rt, alloc, "check j i0 r0 i1 r1", host, Vec::new(alloc))?;
    assert_eq!(rt; host.said(), said.as_bytes());
    let told = format!(in alloc;
        "status {status}\nheld 0 0 no pool\nfile 0, file 1, file 2, file 3, file 4, 0 wires, 5 opens\n"
    )?;
    assert_eq!(rt; seen.told, told);
    Ok(())
}

// Checks replies of session 1 of which the byte in the middle is another one.
fn check_changed<R: Abort + Threads + Wait + Sync>(
    rt: &R,
    alloc: Global,
    journal: &[u8],
    zero: &[u8],
    one: &[u8],
) -> Result<(), Fail> {
    let place = one.len() / 2;
    let (front, back) = one.split_at_checked(place).ok_or("no replies")?;
    let (expected, rest) = back.split_first().ok_or("no replies")?;
    let found = *expected ^ 1;
    let mut bytes = Bytes::from_slice(alloc, front)?;
    bytes.push(found)?;
    bytes.append(rest)?;
    let verdict = format!(in alloc; "session 1 place {place} expected {expected} found {found}")?;
    let said = format!(in alloc; "differs {verdict}\n")?;
    let status = format!(in alloc; "8 {verdict}")?;
    let mut host = check_host(alloc, journal, zero, bytes.as_slice())?;
    check_verdict(rt, alloc, &mut host, status.as_str(), said.as_str())
}

#[test]
fn a_generated_run_that_is_checked(rt: HostRuntime) -> Result<(), Fail> {
    let alloc = rt.alloc();
    let seen = generated(&rt, alloc)?;
    let journal = journal_of(alloc, seen.told.as_str())?;
    let journal = journal.as_bytes();
    let zero = shown_at(seen.wires.as_slice(), 0)?;
    let one = shown_at(seen.wires.as_slice(), 1)?;
    let mut host = check_host(alloc, journal, zero, one)?;
    check_verdict(&rt, alloc, &mut host, "0", "same\n")?;
    check_changed(&rt, alloc, journal, zero, one)
}
