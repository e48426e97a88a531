//! Commands of requests, which stand as lines of words: `|` is between two words, `k*512` is 512 bytes `k`, and
//! `{crlf}` is CR LF. Behind the words stand, each after `>`, the keys of the command's parts, their value, and the
//! command's argument.
use crate::checks::{equal, holds};
use command_parts::{Command, Op};
use flake_base::ErrorKind;
use resp_reader::{Reader, Request};
use shard_part::PartOp;
use std::alloc::Global;
use std::process::Abort;
use std::test::Fail;

// The bytes of a word.
fn bytes_of(alloc: Global, word: &str) -> Result<Vec<u8>, Fail> {
    let mut bytes = Vec::new(alloc);
    match word.split_once('*') {
        Some((letter, count)) => {
            for _ in 0..count.parse::<usize>()? {
                bytes.extend_from_slice(letter.as_bytes())?;
            }
        }
        None => bytes.extend_from_slice(if word == "{crlf}" {
            b"\r\n"
        } else {
            word.as_bytes()
        })?,
    }
    Ok(bytes)
}

// The request of these words, as a reader gives it.
fn request(alloc: Global, words: &str) -> Result<Request, Fail> {
    let mut reader = Reader::new(alloc);
    let count = words.split('|').count();
    reader.feed(format!(in alloc; "*{count}\r\n")?.as_bytes())?;
    for word in words.split('|') {
        let bytes = bytes_of(alloc, word)?;
        reader.feed(format!(in alloc; "${}\r\n", bytes.len())?.as_bytes())?;
        reader.feed(&bytes)?;
        reader.feed(b"\r\n")?;
    }
    Ok(reader.next().ok_or("no request")?)
}

fn command(alloc: Global, words: &str) -> Result<Command, Fail> {
    Ok(Command::of(request(alloc, words)?))
}

/// What is done to one key.
#[derive(Drop)]
struct Deed {
    op: PartOp,
    key: Vec<u8>,
    value: Vec<u8>,
}

/// What a command answers, as plain values.
#[derive(Drop)]
struct Answers {
    op: Op,
    deeds: Vec<Deed>,
    argument: Vec<u8>,
}

// The only calls of these methods. It has no clauses, so that no assertion carries theirs.
fn answers_of(alloc: Global, command: &Command) -> Result<Answers, Fail> {
    let mut deeds = Vec::new(alloc);
    for j in 0..command.count() {
        let part = command.part(j);
        deeds.push(Deed {
            op: part.op,
            key: Vec::from_slice(alloc, part.key)?,
            value: Vec::from_slice(alloc, part.value)?,
        })?;
    }
    Ok(Answers {
        op: command.op(),
        deeds,
        argument: Vec::from_slice(alloc, command.argument())?,
    })
}

fn check_deed(rt: &impl Abort, deed: &Deed, op: PartOp, key: &[u8], value: &[u8]) {
    holds(rt, "the operation", deed.op == op);
    holds(rt, "the key", deed.key.as_slice() == key);
    holds(rt, "the value", deed.value.as_slice() == value);
}

// This is done to each of the keys, of which there is at least one.
fn check_deeds(
    rt: &impl Abort,
    alloc: Global,
    deeds: &[Deed],
    op: PartOp,
    keys: &str,
    value: &[u8],
) -> Result<(), Fail> {
    equal(rt, "keys", deeds.len(), keys.split('|').count());
    for (deed, key) in deeds.iter().zip(keys.split('|')) {
        check_deed(rt, deed, op, &bytes_of(alloc, key)?, value);
    }
    Ok(())
}

// The command has this operation and, if there are keys, does this to each.
fn check_line(
    rt: &impl Abort,
    alloc: Global,
    op: Op,
    part: Option<PartOp>,
    line: &str,
) -> Result<(), Fail> {
    let mut columns = line.split('>');
    let answers = answers_of(alloc, &command(alloc, columns.next().unwrap_or(""))?)?;
    let keys = columns.next().unwrap_or("");
    let value = bytes_of(alloc, columns.next().unwrap_or(""))?;
    let argument = bytes_of(alloc, columns.next().unwrap_or(""))?;
    holds(rt, line, answers.op == op);
    holds(rt, line, answers.argument.as_slice() == argument.as_slice());
    match part {
        Some(part) => check_deeds(rt, alloc, &answers.deeds, part, keys, &value),
        None => {
            holds(rt, line, answers.deeds.is_empty());
            Ok(())
        }
    }
}

fn check_lines(
    rt: &impl Abort,
    alloc: Global,
    op: Op,
    part: Option<PartOp>,
    lines: &str,
) -> Result<(), Fail> {
    for line in lines.split('\n') {
        check_line(rt, alloc, op, part, line)?;
    }
    Ok(())
}

/// Keys of 512 bytes, values of 65,536 and messages of 16,384 are the longest.
static COMMANDS: [(Op, Option<PartOp>, &str); 9] = [
    (
        Op::One(PartOp::Get),
        Some(PartOp::Get),
        "get|a>a\nGET|>\nGET|k*512>k*512",
    ),
    (
        Op::One(PartOp::Set),
        Some(PartOp::Set),
        "SeT|a|{crlf}>a>{crlf}\nSET|a|>a\nSET|k*512|v*65536>k*512>v*65536",
    ),
    (
        Op::MGet,
        Some(PartOp::Get),
        "mGet|k|k|>k|k|\nMGET|a>a\nMGET|a|k*512>a|k*512",
    ),
    (
        Op::Del,
        Some(PartOp::Del),
        "dEL|k|k|>k|k|\nDEL|a>a\nDEL|a|k*512>a|k*512",
    ),
    (
        Op::Exists,
        Some(PartOp::Exists),
        "eXiStS|k|k|>k|k|\nEXISTS|a>a\nEXISTS|a|k*512>a|k*512",
    ),
    (
        Op::One(PartOp::Append),
        Some(PartOp::Append),
        "aPPEND|a|b>a>b\nAPPEND|a|>a\nAPPEND|k*512|v*65536>k*512>v*65536",
    ),
    (Op::Ping, None, "PING"),
    (
        Op::PingWith,
        None,
        "pInG|hi>>>hi\nPING|\nPING|m*16384>>>m*16384",
    ),
    (
        Op::One(PartOp::StrLen),
        Some(PartOp::StrLen),
        "STRLEN|a>a\nstrLen|>\nSTRLEN|k*512>k*512",
    ),
];

#[test]
fn commands(rt: HostRuntime) -> Result<(), Fail> {
    for (op, part, lines) in &COMMANDS {
        check_lines(&rt, rt.alloc(), *op, *part, lines)?;
    }
    Ok(())
}

/// Options of SET.
static SETS: [(PartOp, &str); 5] = [
    (PartOp::SetNx, "SET|a|b|NX>a>b\nSET|a|b|NX|nX>a>b"),
    (PartOp::SetXx, "SET|a|b|xx>a>b\nSET|a|b|XX|XX|XX>a>b"),
    (PartOp::SetGet, "SET|a|b|gEt>a>b\nSET|a|b|GET|GET>a>b"),
    (PartOp::SetNxGet, "SET|a|b|nx|get>a>b\nSET|a|b|GET|NX>a>b"),
    (
        PartOp::SetXxGet,
        "SET|a|b|GET|Xx>a>b\nSET|a|b|GET|XX|GET|XX>a>b",
    ),
];

#[test]
fn options(rt: HostRuntime) -> Result<(), Fail> {
    for (part, lines) in &SETS {
        check_lines(&rt, rt.alloc(), Op::One(*part), Some(*part), lines)?;
    }
    Ok(())
}

static RANGES: [(i64, i64, &str); 6] = [
    (0, -1, "GETRANGE|a|0|-1>a"),
    (-1, 0, "getrange|a|-1|0>a"),
    (10, 1, "GETRANGE|a|10|1>a"),
    (0, 1, "GETRANGE|k*512|0|1>k*512"),
    (
        9_223_372_036_854_775_807,
        i64::MIN,
        "GETRANGE|a|9223372036854775807|-9223372036854775808>a",
    ),
    (
        -9_223_372_036_854_775_807,
        65_536,
        "GETRANGE|a|-9223372036854775807|65536>a",
    ),
];

#[test]
fn ranges(rt: HostRuntime) -> Result<(), Fail> {
    for (start, end, line) in &RANGES {
        let part = PartOp::GetRange {
            start: *start,
            end: *end,
        };
        check_line(&rt, rt.alloc(), Op::One(part), Some(part), line)?;
    }
    Ok(())
}

/// Requests that are errors, also where two tests fail.
static FAULTS: [(ErrorKind, &str); 6] = [
    (
        ErrorKind::UnknownCommand,
        "FLY\nFLY|a|b|c\n\nGE|a\nGETS|a\nGET |a\nG\x05T|a\nPING\0\nSUBSTR|a|0|1\nfly|a\nFLY|k*513",
    ),
    (
        ErrorKind::WrongCount,
        "GET\nGET|a|b\nSET\nSET|a\nMGET\nDEL\nEXISTS\nAPPEND\nAPPEND|a\nAPPEND|a|b|c\nPING|a|b\nSTRLEN\nSTRLEN|a|b\n\
         GETRANGE|a|0\nGETRANGE|a|01\nGETRANGE|a|0|1|2\nping|a|b\nGET|k*513|b\nPING|m*16385|b",
    ),
    (
        ErrorKind::Syntax,
        "SET|a|b|EX|9\nSET|a|b|PX|9\nSET|a|b|NX|XX\nSET|a|b|xx|nx\nSET|a|b|NX|GET|XX\nSET|a|b|GET|EX\n\
         SET|a|b|NX |GET\nSET|a|b|GET|\nSET|a|b|KEEPTTL\nset|a|b|\nSET|k*513|b|EX\nSET|a|v*65537|KEEPTTL",
    ),
    (
        ErrorKind::NotInteger,
        "GETRANGE|a|01|1\nGETRANGE|a|0|01\nGETRANGE|a|-0|1\nGETRANGE|a|0|-0\nGETRANGE|a||1\nGETRANGE|a|0|\n\
         GETRANGE|a|+1|1\nGETRANGE|a|-|1\nGETRANGE|a|9223372036854775808|1\nGETRANGE|a|0|9223372036854775808\n\
         GETRANGE|a|0|-9223372036854775809\nGETRANGE|a|18446744073709551616|1\nGETRANGE|a|x|y",
    ),
    (
        ErrorKind::KeyTooLong,
        "GET|k*513\nSET|k*513|v\nAPPEND|k*513|v\nMGET|a|k*513\nDEL|k*513|a\nEXISTS|a|k*513\nSET|k*513|v*65537\n\
         SET|k*513|b|XX\nSTRLEN|k*513\nGETRANGE|k*513|01|1",
    ),
    (
        ErrorKind::ValueTooLong,
        "SET|a|v*65537\nAPPEND|a|v*65537\nPING|m*16385\nSET|a|v*65537|GET",
    ),
];

#[test]
fn faults(rt: HostRuntime) -> Result<(), Fail> {
    for (kind, lines) in &FAULTS {
        check_lines(&rt, rt.alloc(), Op::Fault(*kind), None, lines)?;
    }
    Ok(())
}

// So many keys, of which the first may be another.
fn keys_from(alloc: Global, first: &str, count: usize) -> Result<String, Fail> {
    let mut keys = String::from_str(alloc, first)?;
    for _ in 1..count {
        keys.push_str("|k")?;
    }
    Ok(keys)
}

fn check_many(
    rt: &impl Abort,
    alloc: Global,
    name: &str,
    keys: &str,
    op: Op,
    part: Option<PartOp>,
) -> Result<(), Fail> {
    let line = format!(in alloc; "{name}|{keys}>{keys}")?;
    check_line(rt, alloc, op, part, line.as_str())
}

// A command takes 64 keys; with one more, or with one that is too long, it is an error.
#[test]
fn many_keys(rt: HostRuntime) -> Result<(), Fail> {
    let alloc = rt.alloc();
    for (name, op, part) in [
        ("MGET", Op::MGet, PartOp::Get),
        ("DEL", Op::Del, PartOp::Del),
        ("EXISTS", Op::Exists, PartOp::Exists),
    ] {
        for (first, count, op, part) in [
            ("", 64, op, Some(part)),
            ("", 65, Op::Fault(ErrorKind::TooManyKeys), None),
            ("k*513", 65, Op::Fault(ErrorKind::TooManyKeys), None),
            ("k*513", 64, Op::Fault(ErrorKind::KeyTooLong), None),
        ] {
            let keys = keys_from(alloc, first, count)?;
            check_many(&rt, alloc, name, keys.as_str(), op, part)?;
        }
    }
    Ok(())
}

#[test]
fn protocol_errors(rt: HostRuntime) -> Result<(), Fail> {
    for kind in [
        ErrorKind::ProtocolCount,
        ErrorKind::ProtocolBulk,
        ErrorKind::ProtocolLength,
        ErrorKind::ProtocolInline,
    ] {
        let answers = answers_of(rt.alloc(), &Command::protocol(kind))?;
        holds(&rt, "the error", answers.op == Op::Fault(kind));
        holds(&rt, "no part", answers.deeds.is_empty());
        holds(&rt, "no argument", answers.argument.is_empty());
    }
    Ok(())
}

// What a request's command can need: descriptors, and staging buffers.
fn need_of(alloc: Global, words: &str) -> Result<(u32, u32), Fail> {
    let need = command(alloc, words)?.need();
    Ok((need.descriptors, need.stage))
}

static NEEDS: [(u32, u32, &str); 5] = [
    (
        1,
        1,
        "PING\nPING|hi\nSET|a|v*65536\nSET|a|b|NX\nDEL|a|b\nEXISTS|a\nAPPEND|a|v*65536\nSTRLEN|a\nFLY",
    ),
    (33, 33, "PING|m*16384"),
    (19, 2, "GET|a\nSET|a|b|GET\nMGET|a"),
    (37, 3, "MGET|a|b"),
    (20, 3, "GETRANGE|a|0|-1"),
];

#[test]
fn needs(rt: HostRuntime) -> Result<(), Fail> {
    for (descriptors, stage, lines) in &NEEDS {
        for words in lines.split('\n') {
            let need = need_of(rt.alloc(), words)?;
            equal(&rt, words, need, (*descriptors, *stage));
        }
    }
    let keys = keys_from(rt.alloc(), "MGET", 64)?;
    let words = format!(in rt.alloc(); "MGET|{keys}")?;
    equal(
        &rt,
        "64 keys",
        need_of(rt.alloc(), words.as_str())?,
        (1154, 66),
    );
    Ok(())
}
