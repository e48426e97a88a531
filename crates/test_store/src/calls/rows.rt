//! Commands with their replies, histories and what is held at the end.
use super::replies::{Outcome, Place, Reply, run};
use crate::checks::{equal, holds};
use command_parts::Command;
use flake_base::{Entry, Journal, Memory, Sequence};
use reply_planner::Need;
use std::alloc::Global;
use std::fmt::Write;
use std::process::Abort;
use std::sync::Wait;
use std::test::Fail;
use test_support::asking::{command, commands_of};

// An entry as a line of a journal: its shard, session, call and part.
type Line = (usize, u16, u32, u16);

fn add_lines(lines: &mut Vec<Line>, shard: usize, history: &Sequence<Entry>) -> Result<(), Memory> {
    for entry in history.iter() {
        lines.push((shard, entry.session, entry.call, entry.part))?;
    }
    Ok(())
}

fn lines_of(alloc: Global, journal: &Journal) -> Result<Vec<Line>, Memory> {
    let mut lines = Vec::new(alloc);
    for (shard, history) in journal.as_slice().iter().enumerate() {
        add_lines(&mut lines, shard, history)?;
    }
    Ok(lines)
}

fn text_of(alloc: Global, replies: &[Reply]) -> Result<Vec<u8>, Memory> {
    let mut text = Vec::new(alloc);
    for reply in replies {
        text.extend_from_slice(&reply.text)?;
    }
    Ok(text)
}

/// Commands over so many large buffers, the bytes of all their replies, their entries, and how many buffers are held.
struct Case {
    large: u32,
    commands: &'static [&'static str],
    text: &'static [u8],
    lines: &'static [Line],
    held: (u32, u32),
}

static CASES: [Case; 8] = [
    Case {
        large: 17,
        commands: &["SET e ''", "GET e", "GET x"],
        text: b"+OK\r\n$0\r\n\r\n$-1\r\n",
        lines: &[(0, 0, 0, 0), (0, 0, 1, 0), (7, 0, 2, 0)],
        held: (0, 0),
    },
    Case {
        large: 17,
        commands: &["SET a 1", "DEL a a", "SET b 1", "EXISTS b b"],
        text: b"+OK\r\n:1\r\n+OK\r\n:2\r\n",
        lines: &[
            (4, 0, 0, 0),
            (4, 0, 1, 0),
            (4, 0, 1, 1),
            (5, 0, 2, 0),
            (5, 0, 3, 0),
            (5, 0, 3, 1),
        ],
        held: (1, 0),
    },
    Case {
        large: 17,
        commands: &["SET k A*16384", "APPEND k B"],
        text: b"+OK\r\n:16385\r\n",
        lines: &[(2, 0, 0, 0), (2, 0, 1, 0)],
        held: (1, 4),
    },
    Case {
        large: 17,
        commands: &["SET k A*65536", "APPEND k B"],
        text: b"+OK\r\n-ERR value too long\r\n",
        lines: &[(2, 0, 0, 0), (2, 0, 1, 0)],
        held: (0, 16),
    },
    Case {
        large: 17,
        commands: &["get a", "FLY", "SET a", "SET a b EX 9", "PING", "PING hi"],
        text: b"$-1\r\n-ERR unknown command\r\n-ERR wrong number of arguments\r\n-ERR syntax error\r\n\
            +PONG\r\n$2\r\nhi\r\n",
        lines: &[(4, 0, 0, 0)],
        held: (0, 0),
    },
    Case {
        large: 17,
        commands: &[
            "SET a 1 NX",
            "SET a 2 NX",
            "SET a 3 XX GET",
            "SET b 4 XX",
            "SET b 5 GET",
            "SET a 6 nx get",
            "SET a 7 NX XX",
        ],
        text: b"+OK\r\n$-1\r\n$1\r\n1\r\n$-1\r\n$-1\r\n$1\r\n3\r\n-ERR syntax error\r\n",
        lines: &[
            (4, 0, 0, 0),
            (4, 0, 1, 0),
            (4, 0, 2, 0),
            (4, 0, 5, 0),
            (5, 0, 3, 0),
            (5, 0, 4, 0),
        ],
        held: (2, 0),
    },
    Case {
        large: 17,
        commands: &[
            "SET k abcdef",
            "GETRANGE k 1 3",
            "GETRANGE k -3 -1",
            "GETRANGE k 4 99",
            "GETRANGE k 3 1",
            "GETRANGE x 0 -1",
            "STRLEN k",
            "STRLEN x",
            "GETRANGE k 0 01",
        ],
        text: b"+OK\r\n$3\r\nbcd\r\n$3\r\ndef\r\n$2\r\nef\r\n$0\r\n\r\n$0\r\n\r\n:6\r\n:0\r\n\
            -ERR value is not an integer or out of range\r\n",
        lines: &[
            (2, 0, 0, 0),
            (2, 0, 1, 0),
            (2, 0, 2, 0),
            (2, 0, 3, 0),
            (2, 0, 4, 0),
            (2, 0, 6, 0),
            (7, 0, 5, 0),
            (7, 0, 7, 0),
        ],
        held: (1, 0),
    },
    Case {
        large: 2,
        commands: &[
            "SET a A*4096",
            "SET b A*4096",
            "SET c A*4096",
            "EXISTS a b c",
            "DEL a",
            "APPEND c A*4096",
            "GET a",
        ],
        text: b"+OK\r\n+OK\r\n-OOM no free buffer\r\n:2\r\n:1\r\n:4096\r\n$-1\r\n",
        lines: &[
            (2, 0, 3, 2),
            (2, 0, 5, 0),
            (4, 0, 0, 0),
            (4, 0, 3, 0),
            (4, 0, 4, 0),
            (4, 0, 6, 0),
            (5, 0, 1, 0),
            (5, 0, 3, 1),
        ],
        held: (0, 2),
    },
];

// Where the numbers are those of a row: at most 64 large buffers, and a threshold from 1 to 512.
fn run_rows<R: Wait>(
    rt: &R,
    alloc: Global,
    large: u32,
    threshold: u32,
    commands: &[Command],
) -> Result<Outcome, Memory> {
    if large > 64 || threshold == 0 || threshold > 512 {
        return Err(Memory);
    }
    run(rt, alloc, large, threshold, commands)
}

// The replies and the journal, as text and as lines.
fn check_outcome(
    rt: &impl Abort,
    alloc: Global,
    outcome: &Outcome,
    case: &Case,
) -> Result<(), Fail> {
    let text = text_of(alloc, &outcome.replies)?;
    equal(rt, "the text", text.as_slice(), case.text);
    let lines = lines_of(alloc, &outcome.journal)?;
    equal(rt, "entries", lines.as_slice(), case.lines);
    equal(
        rt,
        "what is held",
        (outcome.held.small, outcome.held.large),
        case.held,
    );
    Ok(())
}

fn check<R: Wait + Abort>(rt: &R, alloc: Global, case: &Case) -> Result<(), Fail> {
    let commands = commands_of(alloc, case.commands)?;
    let outcome = run_rows(rt, alloc, case.large, 512, &commands)?;
    check_outcome(rt, alloc, &outcome, case)
}

#[test]
fn texts_and_entries(rt: HostRuntime) -> Result<(), Fail> {
    for case in &CASES {
        check(&rt, rt.alloc(), case)?;
    }
    Ok(())
}

fn tell_places(text: &mut String, word: &str, places: &[Place]) -> Result<(), Memory> {
    if places.is_empty() {
        return Ok(());
    }
    text.push_str(word)?;
    for (address, len) in places {
        write!(text, " {address}:{len}")?;
    }
    Ok(())
}

// A line for each reply: its segments, where what was stored lies, and how many buffers its return freed.
fn told_of(alloc: Global, replies: &[Reply]) -> Result<String, Memory> {
    let mut text = String::new(alloc);
    for reply in replies {
        tell_places(&mut text, "send", &reply.sent)?;
        tell_places(&mut text, " store", &reply.stored)?;
        writeln!(text, " freed {}", reply.recycled)?;
    }
    Ok(text)
}

/// Over a pool of 256 small buffers, of which the stage has the first half: a threshold, commands and what is told of
/// them. Each reply is given back before the next, so all begin with the first staging buffer.
static SEGMENTS: [(u32, &[&str], &str); 6] = [
    (
        512,
        &[
            "SET a A*511",
            "SET b A*512",
            "SET c A*513",
            "GET a",
            "GET b",
            "GET c",
        ],
        "\
send 1048576:5 store 1114112:511 freed 0
send 1048576:5 store 1114624:512 freed 0
send 1048576:5 store 1179648:513 freed 0
send 1048576:512 1049088:7 freed 0
send 1048576:6 1114624:512 1048582:2 freed 0
send 1048576:6 1179648:513 1048582:2 freed 0
",
    ),
    (
        512,
        &["SET k A*600", "MGET k k x", "SET k B*600 GET", "GET k"],
        "\
send 1048576:5 store 1179648:600 freed 0
send 1048576:10 1179648:600 1048586:8 1179648:600 1048594:7 freed 0
send 1048576:6 1179648:600 1048582:2 store 1183744:600 freed 1
send 1048576:6 1183744:600 1048582:2 freed 0
",
    ),
    (
        512,
        &["SET k A*4090", "GET k", "APPEND k B*10", "GET k"],
        "\
send 1048576:5 store 1179648:4090 freed 0
send 1048576:7 1179648:4090 1048583:2 freed 0
send 1048576:7 store 1183744:4096 1114112:4 freed 0
send 1048576:7 1183744:4096 1048583:6 freed 0
",
    ),
    (
        512,
        &["SET k A*16385", "GET k"],
        "\
send 1048576:5 store 1179648:4096 1183744:4096 1187840:4096 1191936:4096 1114112:1 freed 0
send 1048576:8 1179648:4096 1183744:4096 1187840:4096 1191936:4096 1048584:3 freed 0
",
    ),
    (
        512,
        &["SET k A*5000", "GETRANGE k 100 4999"],
        "\
send 1048576:5 store 1179648:4096 1183744:904 freed 0
send 1048576:7 1179748:3996 1183744:904 1048583:2 freed 0
",
    ),
    (
        1,
        &["SET k x", "GET k"],
        "\
send 1048576:5 store 1114112:1 freed 0
send 1048576:4 1114112:1 1048580:2 freed 0
",
    ),
];

#[test]
fn segments(rt: HostRuntime) -> Result<(), Fail> {
    let alloc = rt.alloc();
    for (threshold, lines, told) in &SEGMENTS {
        let commands = commands_of(alloc, *lines)?;
        let outcome = run_rows(&rt, alloc, 17, *threshold, &commands)?;
        let text = told_of(alloc, &outcome.replies)?;
        equal(&rt, "what is told", text.as_str(), *told);
    }
    Ok(())
}

// So many buffers full of copied bytes, and so many bytes more.
fn copied(alloc: Global, full: usize, rest: u32) -> Result<Vec<Place>, Memory> {
    let mut places = Vec::new(alloc);
    let mut address = 1_048_576u64;
    for _ in 0..full {
        places.push((address, 512))?;
        address = address.wrapping_add(512);
    }
    places.push((address, rest))?;
    Ok(places)
}

// 64 values of 511 bytes, and what they are answered in one reply.
fn sixty_four(alloc: Global) -> Result<(Vec<Command>, Vec<u8>), Fail> {
    let mut commands = Vec::new(alloc);
    let mut line = String::from_str(alloc, "MGET")?;
    let mut text = b"*64\r\n".to_vec(alloc)?;
    for key in 0..64 {
        commands.push(command(alloc, format!(in alloc; "SET k{key} A*511")?.as_str())?)?;
        write!(line, " k{key}")?;
        text.extend_from_slice(b"$511\r\n")?;
        text.extend_from_slice(&[b'A'; 511])?;
        text.extend_from_slice(b"\r\n")?;
    }
    commands.push(command(alloc, line.as_str())?)?;
    Ok((commands, text))
}

// The reply of this number has this text, copied to so many full buffers and one with so many bytes more.
fn check_copied(
    rt: &impl Abort,
    alloc: Global,
    reply: Option<&Reply>,
    text: &[u8],
    full: usize,
    rest: u32,
) -> Result<(), Fail> {
    let reply = reply.ok_or("no reply")?;
    holds(rt, "the text", reply.text.as_slice() == text);
    equal(
        rt,
        "segments",
        reply.sent.as_slice(),
        copied(alloc, full, rest)?.as_slice(),
    );
    Ok(())
}

fn long_ping(alloc: Global) -> Result<Vec<u8>, Memory> {
    let mut text = b"$16384\r\n".to_vec(alloc)?;
    text.extend_from_slice(&[b'p'; 16_384])?;
    text.extend_from_slice(b"\r\n")?;
    Ok(text)
}

fn need_of(command: Option<&Command>) -> Option<Need> {
    Some(command?.need())
}

#[test]
fn the_longest_copied_replies(rt: HostRuntime) -> Result<(), Fail> {
    let alloc = rt.alloc();
    let (mut commands, text) = sixty_four(alloc)?;
    commands.push(command(alloc, "PING p*16384")?)?;
    let outcome = run_rows(&rt, alloc, 1, 512, &commands)?;
    equal(
        &rt,
        "commands and replies",
        (commands.len(), outcome.replies.len()),
        (66, 66),
    );
    let need = Need {
        descriptors: 1154,
        stage: 66,
    };
    equal(&rt, "the need", need_of(commands.get(64)), Some(need));
    equal(&rt, "bytes", text.len(), 33_221);
    let replies = outcome.replies.as_slice();
    check_copied(&rt, alloc, replies.get(64), &text, 64, 453)?;
    check_copied(&rt, alloc, replies.get(65), &long_ping(alloc)?, 32, 10)?;
    equal(
        &rt,
        "what is held",
        (outcome.held.small, outcome.held.large),
        (64, 0),
    );
    Ok(())
}
