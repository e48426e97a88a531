use crate::checks::{equal, holds};
use byte_store::{ByteAnswer, ByteStore};
use flake_base::Memory;
use shard_part::{Part, PartOp, VALUE_LIMIT};
use std::alloc::Global;
use std::process::Abort;
use std::test::Fail;

/// What a part answers.
#[derive(Clone, Copy)]
enum Told {
    Bulk(&'static [u8]),
    Null,
    Done,
    Length(u64),
    Did(bool),
    TooLong,
}

/// A part's operation, key and value, and what it answers behind the parts before it.
type Row = (PartOp, &'static [u8], &'static [u8], Told);

// The only call of `run`. It has no clauses, so that no assertion carries those of `run`.
fn ran(store: &mut ByteStore, alloc: Global, part: &Part<'_>) -> Result<ByteAnswer, Memory> {
    store.run(alloc, part)
}

fn expect(rt: &impl Abort, answer: &ByteAnswer, told: Told) {
    match (answer, told) {
        (ByteAnswer::Bulk(bytes), Told::Bulk(text)) => equal(rt, "bytes", bytes.as_slice(), text),
        (ByteAnswer::Length(length), Told::Length(wanted)) => equal(
            rt,
            "the length",
            *length,
            wanted,
        ),
        (ByteAnswer::Did(did), Told::Did(wanted)) => equal(rt, "whether it did", *did, wanted),
        (ByteAnswer::Null, Told::Null)
        | (ByteAnswer::Done, Told::Done)
        | (ByteAnswer::TooLong, Told::TooLong) => (),
        _ => holds(rt, "an answer of this kind", false),
    }
}

fn check_all(rt: &impl Abort, alloc: Global, rows: &[Row]) -> Result<(), Fail> {
    let mut store = ByteStore::new(alloc);
    for (op, key, value, told) in rows {
        let part = Part {
            op: *op,
            key: *key,
            value: *value,
        };
        let answer = ran(&mut store, alloc, &part)?;
        expect(rt, &answer, *told);
    }
    Ok(())
}

/// Each way to set a key.
static SETS: [Row; 14] = [
    (PartOp::Get, b"a", b"", Told::Null),
    (PartOp::SetXx, b"a", b"0", Told::Null),
    (PartOp::SetNx, b"a", b"1", Told::Done),
    (PartOp::SetNx, b"a", b"2", Told::Null),
    (PartOp::SetNxGet, b"a", b"3", Told::Bulk(b"1")),
    (PartOp::SetXx, b"a", b"4", Told::Done),
    (PartOp::SetXxGet, b"a", b"5", Told::Bulk(b"4")),
    (PartOp::SetGet, b"a", b"6", Told::Bulk(b"5")),
    (PartOp::Set, b"a", b"7", Told::Done),
    (PartOp::Get, b"a", b"", Told::Bulk(b"7")),
    (PartOp::Del, b"a", b"", Told::Did(true)),
    (PartOp::SetXxGet, b"a", b"8", Told::Null),
    (PartOp::SetNxGet, b"a", b"9", Told::Null),
    (PartOp::Get, b"a", b"", Told::Bulk(b"9")),
];

/// What reads a key, and what puts bytes behind its value; the key `b` has none.
static READS: [Row; 10] = [
    (PartOp::Append, b"a", b"abc", Told::Length(3)),
    (PartOp::Append, b"a", b"def", Told::Length(6)),
    (
        PartOp::GetRange { start: 1, end: -2 },
        b"a",
        b"",
        Told::Bulk(b"bcde"),
    ),
    (
        PartOp::GetRange { start: 3, end: 1 },
        b"a",
        b"",
        Told::Bulk(b""),
    ),
    (PartOp::StrLen, b"a", b"", Told::Length(6)),
    (PartOp::Exists, b"a", b"", Told::Did(true)),
    (PartOp::Exists, b"b", b"", Told::Did(false)),
    (PartOp::Del, b"a", b"", Told::Did(true)),
    (PartOp::Del, b"a", b"", Told::Did(false)),
    (PartOp::StrLen, b"a", b"", Told::Length(0)),
];

#[test]
fn parts(rt: HostRuntime) -> Result<(), Fail> {
    check_all(&rt, rt.alloc(), &SETS)?;
    check_all(&rt, rt.alloc(), &READS)
}

const LONGEST: &[u8] = &[b'v'; VALUE_LIMIT];

/// A value as long as may be, and a byte more.
static LONG: [Row; 4] = [
    (PartOp::Append, b"a", LONGEST, Told::Length(65_536)),
    (PartOp::Append, b"a", b"v", Told::TooLong),
    (PartOp::Append, b"a", b"", Told::Length(65_536)),
    (PartOp::StrLen, b"a", b"", Told::Length(65_536)),
];

#[test]
fn the_longest_value(rt: HostRuntime) -> Result<(), Fail> {
    check_all(&rt, rt.alloc(), &LONG)
}
