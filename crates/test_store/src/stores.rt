ghost use Rattle.std.specs.Prelude.{◌≡◌, ◌+◌, ◌<◌, ◌≤◌};

mod world;

use crate::checks::{equal, holds};
use flake_base::{Entry, Journal, Memory, Sequence};
use order_book::BookBlank;
use pinned_pool::{ClaimStart, Class, NoBuffer, PoolBlank};
use shard_store::{PartAnswer, PartOp};
use std::alloc::Global;
use std::marker::Brand;
use std::process::Abort;
use std::sync::Wait;
use std::test::Fail;
use std::thread::Threads;
use world::{Ask, Outcome, Seen, run_named};

fn run<R: Threads + Wait + Sync>(
    rt: &R,
    alloc: Global,
    pool: PoolBlank,
    book: BookBlank,
    first: &[Ask<'_>],
    second: &[Ask<'_>],
) -> Result<Outcome, Memory>
    requires { (0 < book.sizes.shards) × (book.sizes.shards ≤ 16) × (book.sizes.shards + 3 < pool.sizes.credits) }
{
    run_named::<Brand, Brand, R>(rt, alloc, pool, book, first, second)
}

// Over so many shards, in a pool of 8 small buffers and so many large ones, at most 64.
fn run_over<R: Threads + Wait + Sync>(
    rt: &R,
    alloc: Global,
    shards: u16,
    large: u32,
    first: &[Ask<'_>],
    second: &[Ask<'_>],
) -> Result<Outcome, Fail> {
    if shards == 0 || shards > 16 || large > 64 {
        return Err("no such numbers of shards and buffers".into());
    }
    let pool = PoolBlank::open(alloc, 8, large, 20)?;
    let book = BookBlank::open(alloc, shards, 2)?;
    Ok(run(rt, alloc, pool, book, first, second)?)
}

fn asking<'a>(call: u32, part: u16, op: PartOp, key: &'a [u8], value: &'a [u8]) -> Ask<'a> {
    Ask {
        call,
        part,
        op,
        key,
        value,
        start: ClaimStart::FIRST,
    }
}

// A SET whose claims begin at this small buffer.
fn setting<'a>(call: u32, key: &'a [u8], value: &'a [u8], small: u32) -> Ask<'a> {
    Ask {
        start: ClaimStart { small, large: 0 },
        ..asking(call, 0, PartOp::Set, key, value)
    }
}

// An entry as a line of a journal: its shard, session, call and part.
type Line = (usize, u16, u32, u16);

fn add_lines(lines: &mut Vec<Line>, shard: usize, history: &Sequence<Entry>) -> Result<(), Memory> {
    for entry in history.iter() {
        lines.push((shard, entry.session, entry.call, entry.part))?;
    }
    Ok(())
}

fn lines_of(alloc: Global, journal: &Journal) -> Result<Vec<Line>, Memory> {
    let mut lines = Vec::new(alloc);
    for (shard, history) in journal.as_slice().iter().enumerate() {
        add_lines(&mut lines, shard, history)?;
    }
    Ok(lines)
}

/// A part that is asked for, by its call's number and its own, with the key and the value, and what it is answered,
/// with the bytes that the session gets.
type Row = (
    (u32, u16),
    PartOp,
    &'static [u8],
    &'static [u8],
    PartAnswer,
    &'static [u8],
);

/// What one session asks over eight shards and so many large buffers, the entries, and how many buffers are held.
struct Case {
    test: &'static str,
    large: u32,
    rows: &'static [Row],
    lines: &'static [Line],
    held: (u32, u32),
}

static CASES: [Case; 7] = [
    Case {
        test: "empty_and_missing_values",
        large: 1,
        rows: &[
            ((0, 0), PartOp::Set, b"e", b"", PartAnswer::Done, b""),
            ((1, 0), PartOp::Get, b"e", b"", PartAnswer::Bulk, b""),
            ((2, 0), PartOp::Get, b"x", b"", PartAnswer::Null, b""),
        ],
        lines: &[(0, 0, 0, 0), (0, 0, 1, 0), (7, 0, 2, 0)],
        held: (0, 0),
    },
    Case {
        test: "keys_of_two_shards",
        large: 1,
        rows: &[
            ((0, 0), PartOp::Set, b"a", b"1", PartAnswer::Done, b""),
            ((1, 0), PartOp::Del, b"a", b"", PartAnswer::Did(true), b""),
            ((1, 1), PartOp::Del, b"a", b"", PartAnswer::Did(false), b""),
            ((2, 0), PartOp::Set, b"b", b"1", PartAnswer::Done, b""),
            (
                (3, 0),
                PartOp::Exists,
                b"b",
                b"",
                PartAnswer::Did(true),
                b"",
            ),
            (
                (3, 1),
                PartOp::Exists,
                b"b",
                b"",
                PartAnswer::Did(true),
                b"",
            ),
        ],
        lines: &[
            (4, 0, 0, 0),
            (4, 0, 1, 0),
            (4, 0, 1, 1),
            (5, 0, 2, 0),
            (5, 0, 3, 0),
            (5, 0, 3, 1),
        ],
        held: (1, 0),
    },
    Case {
        test: "sets_by_their_options",
        large: 1,
        rows: &[
            ((0, 0), PartOp::SetNx, b"a", b"1", PartAnswer::Done, b""),
            ((1, 0), PartOp::SetNx, b"a", b"2", PartAnswer::Null, b""),
            ((2, 0), PartOp::SetXxGet, b"a", b"3", PartAnswer::Bulk, b"1"),
            ((3, 0), PartOp::SetXx, b"b", b"4", PartAnswer::Null, b""),
            ((4, 0), PartOp::SetGet, b"b", b"5", PartAnswer::Null, b""),
            ((5, 0), PartOp::SetNxGet, b"a", b"6", PartAnswer::Bulk, b"3"),
        ],
        lines: &[
            (4, 0, 0, 0),
            (4, 0, 1, 0),
            (4, 0, 2, 0),
            (4, 0, 5, 0),
            (5, 0, 3, 0),
            (5, 0, 4, 0),
        ],
        held: (2, 0),
    },
    Case {
        test: "ranges",
        large: 1,
        rows: &[
            ((0, 0), PartOp::Set, b"k", b"abcdef", PartAnswer::Done, b""),
            (
                (1, 0),
                PartOp::GetRange { start: 1, end: 3 },
                b"k",
                b"",
                PartAnswer::Bulk,
                b"bcd",
            ),
            (
                (2, 0),
                PartOp::GetRange { start: -3, end: -1 },
                b"k",
                b"",
                PartAnswer::Bulk,
                b"def",
            ),
            (
                (3, 0),
                PartOp::GetRange { start: 4, end: 99 },
                b"k",
                b"",
                PartAnswer::Bulk,
                b"ef",
            ),
            (
                (4, 0),
                PartOp::GetRange { start: 3, end: 1 },
                b"k",
                b"",
                PartAnswer::Bulk,
                b"",
            ),
            (
                (5, 0),
                PartOp::GetRange { start: 0, end: -1 },
                b"x",
                b"",
                PartAnswer::Bulk,
                b"",
            ),
            (
                (6, 0),
                PartOp::StrLen,
                b"k",
                b"",
                PartAnswer::Length(6),
                b"",
            ),
            (
                (7, 0),
                PartOp::StrLen,
                b"x",
                b"",
                PartAnswer::Length(0),
                b"",
            ),
        ],
        lines: &[
            (2, 0, 0, 0),
            (2, 0, 1, 0),
            (2, 0, 2, 0),
            (2, 0, 3, 0),
            (2, 0, 4, 0),
            (2, 0, 6, 0),
            (7, 0, 5, 0),
            (7, 0, 7, 0),
        ],
        held: (1, 0),
    },
    Case {
        test: "long_values",
        large: 17,
        rows: &[
            (
                (0, 0),
                PartOp::Set,
                b"k",
                &[b'A'; 16_384],
                PartAnswer::Done,
                b"",
            ),
            (
                (1, 0),
                PartOp::Append,
                b"k",
                b"B",
                PartAnswer::Length(16_385),
                b"",
            ),
        ],
        lines: &[(2, 0, 0, 0), (2, 0, 1, 0)],
        held: (1, 4),
    },
    Case {
        test: "long_values",
        large: 17,
        rows: &[
            (
                (0, 0),
                PartOp::Set,
                b"k",
                &[b'A'; 65_536],
                PartAnswer::Done,
                b"",
            ),
            ((1, 0), PartOp::Append, b"k", b"B", PartAnswer::TooLong, b""),
        ],
        lines: &[(2, 0, 0, 0), (2, 0, 1, 0)],
        held: (0, 16),
    },
    Case {
        test: "no_buffer_makes_no_entry",
        large: 2,
        rows: &[
            (
                (0, 0),
                PartOp::Set,
                b"a",
                &[b'A'; 4_096],
                PartAnswer::Done,
                b"",
            ),
            (
                (1, 0),
                PartOp::Set,
                b"b",
                &[b'A'; 4_096],
                PartAnswer::Done,
                b"",
            ),
            (
                (2, 0),
                PartOp::Set,
                b"c",
                &[b'A'; 4_096],
                PartAnswer::NoBuffer(NoBuffer {
                    class: Class::Large,
                    looked: 2,
                }),
                b"",
            ),
        ],
        lines: &[(4, 0, 0, 0), (5, 0, 1, 0)],
        held: (0, 2),
    },
];

fn asks_of(alloc: Global, rows: &[Row]) -> Result<Vec<Ask<'static>>, Memory> {
    let mut asks = Vec::new(alloc);
    for ((call, part), op, key, value, _, _) in rows {
        asks.push(asking(*call, *part, *op, *key, *value))?;
    }
    Ok(asks)
}

fn check_row(rt: &impl Abort, test: &str, seen: &Seen, row: &Row) {
    let (_, _, _, _, answer, bytes) = row;
    equal(rt, test, seen.answer, *answer);
    holds(rt, test, seen.bytes.as_slice() == *bytes);
}

fn check_outcome(
    rt: &impl Abort,
    alloc: Global,
    outcome: &Outcome,
    case: &Case,
) -> Result<(), Fail> {
    let test = case.test;
    equal(rt, test, outcome.first.len(), case.rows.len());
    for (seen, row) in outcome.first.iter().zip(case.rows) {
        check_row(rt, test, seen, row);
    }
    let lines = lines_of(alloc, &outcome.journal)?;
    equal(rt, test, lines.as_slice(), case.lines);
    equal(
        rt,
        test,
        (outcome.held.small, outcome.held.large),
        case.held,
    );
    Ok(())
}

fn check<R: Threads + Wait + Sync + Abort>(rt: &R, alloc: Global, case: &Case) -> Result<(), Fail> {
    let asks = asks_of(alloc, case.rows)?;
    let outcome = run_over(rt, alloc, 8, case.large, &asks, &[])?;
    check_outcome(rt, alloc, &outcome, case)
}

#[test]
fn parts_of_a_session(rt: HostRuntime) -> Result<(), Fail> {
    for case in &CASES {
        check(&rt, rt.alloc(), case)?;
    }
    Ok(())
}

/// Where the first small buffer begins.
const SMALL: u64 = 1_048_576;

/// Where the values of four SETs lie.
static PLACES: [Option<u64>; 4] = [
    Some(SMALL + 6 * 512),
    Some(SMALL + 7 * 512),
    Some(SMALL + 2 * 512),
    Some(SMALL),
];

// Where the only segment that was stored begins.
fn place(seen: &Seen) -> Option<u64> {
    match seen.stored.as_slice() {
        [seg] => Some(seg.address),
        _ => None,
    }
}

// The value that comes last finds the two buffers from its start on held, and the first one free.
#[test]
fn claims_begin_where_a_part_says(rt: HostRuntime) -> Result<(), Fail> {
    let asks = [
        setting(0, b"a", b"1", 6),
        setting(1, b"b", b"2", 7),
        setting(2, b"e", b"3", 2),
        setting(3, b"a", b"4", 6),
    ];
    let outcome = run_over(&rt, rt.alloc(), 8, 1, &asks, &[])?;
    equal(&rt, "answers", outcome.first.len(), PLACES.len());
    for (seen, wanted) in outcome.first.iter().zip(&PLACES) {
        equal(&rt, "where it lies", place(seen), *wanted);
    }
    equal(
        &rt,
        "what is held",
        (outcome.held.small, outcome.held.large),
        (3, 0),
    );
    Ok(())
}

fn asks_on<'a>(alloc: Global, key: &'a [u8], value: &'a [u8]) -> Result<Vec<Ask<'a>>, Memory> {
    let mut asks = Vec::new(alloc);
    for call in 0..100 {
        let op = match call % 5 {
            0 => PartOp::Set,
            1 => PartOp::Append,
            2 => PartOp::SetGet,
            3 => PartOp::Get,
            _ => PartOp::Del,
        };
        asks.push(asking(call, 0, op, key, value))?;
    }
    Ok(asks)
}

// The history of the one shard with parts has those of both sessions, each session's in order.
fn check_history(rt: &impl Abort, lines: &[Line], shard: usize) {
    equal(rt, "entries", lines.len(), 200);
    holds(rt, "the shard", lines.iter().all(|line| line.0 == shard));
    for session in 0..2 {
        let calls = lines.iter().filter(|line| line.1 == session);
        holds(
            rt,
            "the order of calls",
            calls.map(|line| line.2).eq(0..100),
        );
    }
}

// Two sessions ask at once on one key, which is in this shard.
fn check_shared<R: Threads + Wait + Sync + Abort>(
    rt: &R,
    alloc: Global,
    shards: u16,
    shard: usize,
) -> Result<(), Fail> {
    let value = [b'v'; 700];
    let asks = asks_on(alloc, b"k", &value)?;
    let outcome = run_over(rt, alloc, shards, 8, asks.as_slice(), asks.as_slice())?;
    equal(
        rt,
        "answers",
        (outcome.first.len(), outcome.second.len()),
        (100, 100),
    );
    equal(rt, "shards", outcome.journal.len(), shards as usize);
    check_history(rt, &lines_of(alloc, &outcome.journal)?, shard);
    equal(
        rt,
        "what is held",
        (outcome.held.small, outcome.held.large),
        (0, 0),
    );
    Ok(())
}

#[test]
fn two_sessions_on_one_shard(rt: HostRuntime) -> Result<(), Fail> {
    check_shared(&rt, rt.alloc(), 1, 0)
}

#[test]
fn two_sessions_on_one_of_sixteen_shards(rt: HostRuntime) -> Result<(), Fail> {
    check_shared(&rt, rt.alloc(), 16, 10)
}
