use crate::checks::{equal, holds};
use range_pick::{NotInteger, Piece, Pieces, Span, read_signed, span};
use std::process::Abort;
use std::test::Fail;

static NUMBERS: [(&[u8], i64); 16] = [
    (b"0", 0),
    (b"1", 1),
    (b"-1", -1),
    (b"9", 9),
    (b"10", 10),
    (b"-10", -10),
    (b"100", 100),
    (b"4096", 4_096),
    (b"-65536", -65_536),
    (b"1000000000000000000", 1_000_000_000_000_000_000),
    (b"9223372036854775800", 9_223_372_036_854_775_800),
    (b"9223372036854775806", 9_223_372_036_854_775_806),
    (b"9223372036854775807", 9_223_372_036_854_775_807),
    (b"-9223372036854775807", -9_223_372_036_854_775_807),
    (b"-9223372036854775808", i64::MIN),
    (b"-1000000000000000000", -1_000_000_000_000_000_000),
];

static NO_NUMBERS: [&[u8]; 28] = [
    b"",
    b"-",
    b"--1",
    b"-0",
    b"00",
    b"01",
    b"-01",
    b"+1",
    b"+0",
    b" 1",
    b"1 ",
    b"1\r\n",
    b"1.0",
    b"1e3",
    b"0x10",
    b"a",
    b"1a",
    b"a1",
    b"/",
    b":",
    b"1-",
    b"9223372036854775808",
    b"-9223372036854775809",
    b"18446744073709551615",
    b"18446744073709551616",
    b"18446744073709551617",
    b"-18446744073709551617",
    b"100000000000000000000000000000000000000000",
];

#[test]
fn numbers(rt: HostRuntime) {
    for (word, number) in &NUMBERS {
        equal(&rt, "a number", read_signed(*word), Ok(*number));
    }
    for word in &NO_NUMBERS {
        equal(&rt, "a number", read_signed(*word), Err(NotInteger));
    }
}

static PLACES: [i64; 28] = [
    0, 1, 2, 510, 511, 512, 513, 4_094, 4_095, 4_096, 4_097, 65_534, 65_535, 65_536, -1, -2, -510,
    -511, -512, -513, -4_094, -4_095, -4_096, -4_097, -65_534, -65_535, -65_536, -65_537,
];

static LENGTHS: [u32; 6] = [0, 1, 512, 4_096, 4_097, 65_536];

// The first of the places of a value that lie between two places, and how many do: each place is looked at.
fn places_between(len: u32, start: i64, end: i64) -> (Option<u64>, u64) {
    let low = from_the_front(len, start);
    let high = from_the_front(len, end);
    let mut first = None;
    let mut count: u64 = 0;
    for place in 0..len {
        if low <= i64::from(place) && i64::from(place) <= high {
            first = first.or(Some(u64::from(place)));
            count = count.saturating_add(1);
        }
    }
    (first, count)
}

fn from_the_front(len: u32, place: i64) -> i64 {
    if place < 0 {
        place.saturating_add(i64::from(len))
    } else {
        place
    }
}

fn span_of(len: u32, start: i64, end: i64) -> Span {
    span(u64::from(len), start, end)
}

fn check_span(rt: &impl Abort, len: u32, start: i64, end: i64) {
    let (first, count) = places_between(len, start, end);
    let found = span_of(len, start, end);
    equal(rt, "the length", found.len, count);
    holds(rt, "it begins within", found.from <= u64::from(len));
    if count > 0 {
        equal(rt, "the first place", Some(found.from), first);
    }
    check_pieces(rt, found);
}

fn pieces_in(rt: &impl Abort, span: Span) -> Pieces {
    let end = span.from.saturating_add(span.len);
    assert!(rt; end <= 65_536);
    assert!(rt; end >= span.from);
    Pieces::of(span)
}

// The pieces lie behind one another, each within its fragment, and end where the span ends.
fn check_pieces(rt: &impl Abort, span: Span) {
    let mut next = span.from;
    let mut left = span.len;
    for piece in pieces_in(rt, span) {
        let Piece { frag, from, len } = piece;
        equal(rt, "the fragment", u64::from(frag), next / 4_096);
        equal(rt, "the place there", u64::from(from), next % 4_096);
        holds(rt, "some bytes", len > 0);
        holds(rt, "within the fragment", from.saturating_add(len) <= 4_096);
        next = next.saturating_add(u64::from(len));
        left = left.saturating_sub(u64::from(len));
        holds(
            rt,
            "to the fragment's end",
            left == 0 || from.saturating_add(len) == 4_096,
        );
    }
    equal(rt, "bytes left", left, 0);
    equal(rt, "the end", next, span.from.saturating_add(span.len));
}

#[test]
fn spans_and_pieces(rt: HostRuntime) {
    for len in &LENGTHS {
        for start in &PLACES {
            for end in &PLACES {
                check_span(&rt, *len, *start, *end);
            }
        }
    }
}

/// A span and its pieces, each a fragment's number, a place in it and a number of bytes.
type Row = (Span, &'static [(u32, u32, u32)]);

static ROWS: [Row; 7] = [
    (Span { from: 0, len: 0 }, &[]),
    (
        Span {
            from: 4_096,
            len: 0,
        },
        &[],
    ),
    (
        Span {
            from: 0,
            len: 4_096,
        },
        &[(0, 0, 4_096)],
    ),
    (
        Span {
            from: 100,
            len: 4_900,
        },
        &[(0, 100, 3_996), (1, 0, 904)],
    ),
    (
        Span {
            from: 4_095,
            len: 2,
        },
        &[(0, 4_095, 1), (1, 0, 1)],
    ),
    (
        Span {
            from: 4_000,
            len: 8_192,
        },
        &[(0, 4_000, 96), (1, 0, 4_096), (2, 0, 4_000)],
    ),
    (
        Span {
            from: 65_535,
            len: 1,
        },
        &[(15, 4_095, 1)],
    ),
];

fn check_row(rt: &impl Abort, row: &Row) {
    let mut pieces = pieces_in(rt, row.0);
    for (frag, from, len) in row.1 {
        let piece = Piece {
            frag: *frag,
            from: *from,
            len: *len,
        };
        equal(rt, "a piece", pieces.next(), Some(piece));
    }
    equal(rt, "a piece", pieces.next(), None);
}

#[test]
fn pieces(rt: HostRuntime) {
    for row in &ROWS {
        check_row(&rt, row);
    }
}

#[test]
fn far_places(rt: HostRuntime) {
    let none = Span { from: 6, len: 0 };
    equal(&rt, "the last places", span_of(6, i64::MAX, i64::MAX), none);
    equal(&rt, "behind the end", span_of(6, 7, 99), none);
    equal(
        &rt,
        "all places",
        span_of(6, i64::MIN, i64::MAX),
        Span { from: 0, len: 6 },
    );
    equal(
        &rt,
        "the first places",
        span_of(6, i64::MIN, i64::MIN),
        Span { from: 0, len: 0 },
    );
    equal(
        &rt,
        "turned round",
        span_of(6, 3, 1),
        Span { from: 3, len: 0 },
    );
    equal(
        &rt,
        "from the end",
        span_of(6, -3, -1),
        Span { from: 3, len: 3 },
    );
}
