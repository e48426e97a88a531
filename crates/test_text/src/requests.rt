ghost use Rattle.std.specs.Prelude.{◌≡◌, None, OnOk};

use crate::checks::{equal, holds};
use resp_reader::{Ended, ReadError, Reader, Request};
use std::alloc::{AllocError, Global};
use std::process::Abort;
use std::test::Fail;

// What a reader gave of an input: its requests, and the end.
#[derive(Drop)]
struct Given {
    requests: Vec<Request>,
    end: Result<Ended, ReadError>,
}

// The only call of `feed`, with the one clause that is needed.
fn feed_once(reader: &mut Reader, piece: &[u8]) -> Result<(), ReadError>
    ensures { OnOk result (reader.new.closed ≡ None) }
{
    reader.feed(piece)
}

// Feeds a piece, once more after want of memory.
fn feed(reader: &mut Reader, piece: &[u8]) -> Result<(), ReadError>
    ensures { OnOk result (reader.new.closed ≡ None) }
{
    match feed_once(reader, piece) {
        Err(ReadError::Memory) => feed_once(reader, piece),
        fed => fed,
    }
}

fn give(reader: &mut Reader, requests: &mut Vec<Request>) -> Result<(), AllocError>
    ensures { reader.new.closed ≡ reader.old.closed }
{
    while let Some(request) = reader.next() {
        requests.push(request)?;
    }
    Ok(())
}

// Reads an input in these pieces.
fn read(alloc: Global, pieces: &[&[u8]]) -> Result<Given, AllocError> {
    let mut reader = Reader::new(alloc);
    let mut requests = Vec::new(alloc);
    for piece in pieces {
        let fed = feed(&mut reader, *piece);
        give(&mut reader, &mut requests)?;
        if let Err(error) = fed {
            return Ok(Given {
                requests,
                end: Err(error),
            });
        }
    }
    Ok(Given {
        requests,
        end: Ok(reader.end()),
    })
}

fn word_is(request: &Request, i: usize, word: &[u8]) -> bool {
    i < request.len() && request.word(i) == word
}

fn words_are(request: &Request, words: &[&[u8]]) -> bool {
    for (i, word) in words.iter().enumerate() {
        if !word_is(request, i, *word) {
            return false;
        }
    }
    request.len() == words.len()
}

/// The words of a request.
type Words = &'static [&'static [u8]];

/// A test, an input, the requests that it gives, and how it ends.
type Row = (
    &'static str,
    &'static [u8],
    &'static [Words],
    Result<Ended, ReadError>,
);

const PING: Words = &[b"PING"];

static ROWS: [Row; 26] = [
    (
        "whole_inputs",
        b"*3\r\n$3\r\nSET\r\n$1\r\na\r\n$1\r\n1\r\n*2\r\n$3\r\nGET\r\n$1\r\na\r\n",
        &[&[b"SET", b"a", b"1"], &[b"GET", b"a"]],
        Ok(Ended::Clean),
    ),
    (
        "whole_inputs",
        b"*0\r\n*-1\r\n*1\r\n$4\r\nPING\r\n",
        &[PING],
        Ok(Ended::Clean),
    ),
    (
        "whole_inputs",
        b"*2\r\n$0\r\n\r\n$2\r\n\r\n\r\n",
        &[&[b"", b"\r\n"]],
        Ok(Ended::Clean),
    ),
    ("whole_inputs", b"", &[], Ok(Ended::Clean)),
    (
        "cut_short",
        b"*1\r\n$4\r\nPING\r\n*2\r\n$3\r\nGE",
        &[PING],
        Ok(Ended::Truncated { place: 14 }),
    ),
    (
        "cut_short",
        b"*1\r\n$4\r\nPING\r",
        &[],
        Ok(Ended::Truncated { place: 0 }),
    ),
    (
        "cut_short",
        b"*0\r\n*",
        &[],
        Ok(Ended::Truncated { place: 4 }),
    ),
    (
        "worked_errors",
        b"*1\r\n$01\r\n",
        &[],
        Err(ReadError::BadLength { place: 6 }),
    ),
    (
        "worked_errors",
        b"*1025\r\n",
        &[],
        Err(ReadError::BadCount { place: 4 }),
    ),
    (
        "worked_errors",
        b"*-2\r\n",
        &[],
        Err(ReadError::BadCount { place: 2 }),
    ),
    (
        "worked_errors",
        b"*1\r\n$-1\r\n",
        &[],
        Err(ReadError::BadLength { place: 5 }),
    ),
    (
        "worked_errors",
        b"*1\r\n+OK\r\n",
        &[],
        Err(ReadError::ExpectedBulk { place: 4 }),
    ),
    (
        "worked_errors",
        b"PING\r\n",
        &[],
        Err(ReadError::Inline { place: 0 }),
    ),
    (
        "worked_errors",
        b"*1\n",
        &[],
        Err(ReadError::BadCount { place: 2 }),
    ),
    (
        "worked_errors",
        b"*1\r\n$4\r\nPINGX",
        &[],
        Err(ReadError::BadLength { place: 12 }),
    ),
    // Numbers above their limits, and with digits that they can't have.
    (
        "long_heads",
        b"*99999999999999999999\r\n",
        &[],
        Err(ReadError::BadCount { place: 4 }),
    ),
    (
        "long_heads",
        b"*00\r\n",
        &[],
        Err(ReadError::BadCount { place: 2 }),
    ),
    (
        "long_heads",
        b"*-10\r\n",
        &[],
        Err(ReadError::BadCount { place: 3 }),
    ),
    (
        "long_heads",
        b"*\r\n",
        &[],
        Err(ReadError::BadCount { place: 1 }),
    ),
    (
        "long_heads",
        b"*1\r\n$1048577\r\n",
        &[],
        Err(ReadError::BadLength { place: 11 }),
    ),
    (
        "long_heads",
        b"*1\r\n$99999999999999\r\n",
        &[],
        Err(ReadError::BadLength { place: 11 }),
    ),
    (
        "no_line_feed",
        b"*1\rX",
        &[],
        Err(ReadError::BadCount { place: 3 }),
    ),
    (
        "no_line_feed",
        b"*-1\rX",
        &[],
        Err(ReadError::BadCount { place: 4 }),
    ),
    (
        "no_line_feed",
        b"*1\r\n$1\rX",
        &[],
        Err(ReadError::BadLength { place: 7 }),
    ),
    (
        "no_line_feed",
        b"*1\r\n$1\r\na\rX",
        &[],
        Err(ReadError::BadLength { place: 10 }),
    ),
    // A request of two words behind an error isn't given, and one before it is.
    (
        "closed",
        b"*1\r\n$4\r\nPING\r\n?*1\r\n$1\r\na\r\n",
        &[PING],
        Err(ReadError::Inline { place: 14 }),
    ),
];

fn check_given(rt: &impl Abort, found: &Given, row: &Row) {
    let (test, _, requests, end) = row;
    holds(rt, test, found.end == *end);
    equal(rt, test, found.requests.len(), requests.len());
    for (request, words) in found.requests.iter().zip(*requests) {
        holds(rt, test, words_are(request, *words));
    }
}

// The input gives these requests, and ends so, whole and cut behind every byte.
fn check(rt: &impl Abort, alloc: Global, row: &Row) -> Result<(), Fail> {
    let input = row.1;
    for at in 0..=input.len() {
        let (front, back) = input.split_at(at);
        check_given(rt, &read(alloc, &[front, back])?, row);
    }
    for size in 1..8 {
        let pieces: Vec<&[u8]> = input.chunks(size).collect(alloc)?;
        check_given(rt, &read(alloc, &pieces)?, row);
    }
    Ok(())
}

// `whole_inputs`, `cut_short`, `worked_errors`, `long_heads`, `no_line_feed` and `closed`.
#[test]
fn inputs(rt: HostRuntime) -> Result<(), Fail> {
    for row in &ROWS {
        check(&rt, rt.alloc(), row)?;
    }
    Ok(())
}

// Each piece is answered so.
fn check_feeds(
    rt: &impl Abort,
    reader: &mut Reader,
    pieces: &[&[u8]],
    want: Result<(), ReadError>,
) {
    for piece in pieces {
        holds(rt, "a piece", feed_once(reader, *piece) == want);
    }
}

// The next request; none where there is none. It has no clauses, so that no assertion carries those of `next`.
fn next(reader: &mut Reader) -> Option<Request> {
    reader.next()
}

// The error stays, before and behind the request.
#[test]
fn closed(rt: HostRuntime) -> Result<(), Fail> {
    let error = Err(ReadError::Inline { place: 14 });
    let mut reader = Reader::new(rt.alloc());
    let pieces: [&[u8]; 3] = [b"*1\r\n$4\r\nPING\r\n?", b"*1\r\n", b""];
    check_feeds(&rt, &mut reader, &pieces, error);
    let request = next(&mut reader).ok_or("no request")?;
    holds(&rt, "the words", words_are(&request, PING));
    holds(&rt, "no more requests", next(&mut reader).is_none());
    check_feeds(&rt, &mut reader, &[b""], error);
    Ok(())
}

fn last_word_is(request: &Request, word: &[u8]) -> bool {
    match request.len().checked_sub(1) {
        Some(last) => word_is(request, last, word),
        None => false,
    }
}

// 1,024 words of one byte, in pieces of 1 to 70 bytes.
#[test]
fn many_words(rt: HostRuntime) -> Result<(), Fail> {
    let mut input = Vec::from_slice(rt.alloc(), b"*1024\r\n")?;
    for _ in 0..1024 {
        input.extend_from_slice(b"$1\r\nx\r\n")?;
    }
    for size in 1..=70 {
        let pieces: Vec<&[u8]> = input.chunks(size).collect(rt.alloc())?;
        let found = read(rt.alloc(), &pieces)?;
        holds(&rt, "the end", found.end == Ok(Ended::Clean));
        equal(&rt, "requests", found.requests.len(), 1);
        for request in &found.requests {
            equal(&rt, "words", request.len(), 1024);
            holds(&rt, "the last word", word_is(request, 1023, b"x"));
        }
    }
    Ok(())
}

fn word_len(request: &Request, i: usize) -> Option<usize> {
    if i < request.len() {
        Some(request.word(i).len())
    } else {
        None
    }
}

// No head takes room by itself: of a word of 1,048,576 bytes 5 came, then 4,096 in all, then all.
#[test]
fn room_for_what_comes(rt: HostRuntime) -> Result<(), Fail> {
    let mut reader = Reader::new(rt.alloc());
    check_feeds(&rt, &mut reader, &[b"*1\r\n$1048576\r\n12345"], Ok(()));
    equal(&rt, "room", reader.capacity(), 128);
    let more = vec![in rt.alloc(); b'7'; 4090]?;
    check_feeds(&rt, &mut reader, &[&more], Ok(()));
    holds(&rt, "room for two fragments", reader.capacity() <= 2 * 4096);
    check_feeds(&rt, &mut reader, &[b"6"], Ok(()));
    equal(&rt, "room", reader.capacity(), 65_536);
    let rest = vec![in rt.alloc(); b'8'; 1_048_576 - 4096]?;
    check_feeds(&rt, &mut reader, &[&rest, b"\r\n"], Ok(()));
    let request = next(&mut reader).ok_or("no request")?;
    equal(&rt, "words", request.len(), 1);
    equal(
        &rt,
        "the word's length",
        word_len(&request, 0),
        Some(1_048_576),
    );
    Ok(())
}

// A request of PING and 1,048,576 bytes, 1,048,602 in all.
fn longest(alloc: Global) -> Result<Vec<u8>, AllocError> {
    let mut input = Vec::from_slice(alloc, b"*2\r\n$4\r\nPING\r\n$1048576\r\n")?;
    for _ in 0..4096 {
        input.extend_from_slice(&[b'v'; 256])?;
    }
    input.extend_from_slice(b"\r\n")?;
    Ok(input)
}

// The pieces are taken and give one request of two words, the second of 1,048,576 bytes.
fn check_longest(rt: &impl Abort, reader: &mut Reader, pieces: &[&[u8]]) -> Result<(), Fail> {
    check_feeds(rt, reader, pieces, Ok(()));
    let request = next(reader).ok_or("no request")?;
    equal(rt, "words", request.len(), 2);
    equal(
        rt,
        "the word's length",
        word_len(&request, 1),
        Some(1_048_576),
    );
    holds(rt, "no more requests", next(reader).is_none());
    Ok(())
}

// 64 such requests have 67,110,528 bytes, of which 67,108,864 are judged, with 63 whole requests.
#[test]
fn too_long(rt: HostRuntime) -> Result<(), Fail> {
    let input = longest(rt.alloc())?;
    equal(&rt, "the input's length", input.len(), 1_048_602);
    let pieces: Vec<&[u8]> = input.chunks(65_536).collect(rt.alloc())?;
    let mut reader = Reader::new(rt.alloc());
    for _ in 0..63 {
        check_longest(&rt, &mut reader, &pieces)?;
    }
    let error = Err(ReadError::TooLong { taken: 67_108_864 });
    check_feeds(&rt, &mut reader, &[&input], error);
    holds(&rt, "no more requests", next(&mut reader).is_none());
    check_feeds(&rt, &mut reader, &[b"?"], error);
    Ok(())
}

// Adds a request of so many words, of which each is its number among the digits.
fn add_request(input: &mut Vec<u8>, alloc: Global, count: u32) -> Result<(), AllocError> {
    input.extend_from_slice(format!(in alloc; "*{count}\r\n")?.as_bytes())?;
    for i in 0..count {
        input.extend_from_slice(format!(in alloc; "$1\r\n{}\r\n", i % 10)?.as_bytes())?;
    }
    Ok(())
}

// The digit that is the last of so many words.
fn last_digit(len: usize) -> u8 {
    b'0' + (len.saturating_sub(1) % 10) as u8
}

// Takes the whole requests, of which each has its last word and lends its room to the next; notes how long each is.
fn lend(rt: &impl Abort, reader: &mut Reader, lens: &mut Vec<usize>) -> Result<(), AllocError> {
    while let Some(request) = reader.next() {
        let len = request.len();
        holds(
            rt,
            "the last word",
            last_word_is(&request, &[last_digit(len)]),
        );
        lens.push(len)?;
        reader.give_back(request);
    }
    Ok(())
}

// Requests of 1 and of 1,024 words in turn.
#[test]
fn rooms_in_turn(rt: HostRuntime) -> Result<(), Fail> {
    let alloc = rt.alloc();
    let mut input = Vec::new(alloc);
    for count in [1, 1024, 1, 2, 1024, 1] {
        add_request(&mut input, alloc, count)?;
    }
    for size in [1, 7, 4096, 65_536] {
        let mut reader = Reader::new(alloc);
        let mut lens = Vec::new(alloc);
        for piece in input.chunks(size) {
            holds(&rt, "a piece", feed(&mut reader, piece) == Ok(()));
            lend(&rt, &mut reader, &mut lens)?;
        }
        equal(
            &rt,
            "words of each",
            lens.as_slice(),
            [1, 1024, 1, 2, 1024, 1].as_slice(),
        );
    }
    Ok(())
}
