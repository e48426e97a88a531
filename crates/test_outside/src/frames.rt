//! Frames by their fields, and the calls that take them.
use flake_base::{Bytes, Fails, Memory, MemoryWire};
use mtu_frames::{BadFrame, Joiner, Taken, header};
use std::alloc::Global;
use std::test::Fail;

// The only calls of these five. They have no clauses, so that no assertion carries those of the calls.
pub fn header_of(call: u32, index: u32, count: u32, len: u16) -> [u8; 16] {
    header(call, index, count, len)
}

pub fn new_joiner(alloc: Global, mtu: u16, calls: u32) -> Joiner {
    Joiner::new(alloc, mtu.max(64).min(9216), calls)
}

pub fn take(joiner: &mut Joiner, frame: &[u8]) -> Result<Taken, BadFrame> {
    joiner.take(frame)
}

pub fn missing(joiner: &Joiner) -> Option<(u32, u32)> {
    joiner.missing().map(|it| (it.call, it.frame))
}

/// What is put on a wire of which these puts fail, and whether all was; nothing where a frame is missing.
pub fn put(alloc: Global, joiner: &Joiner, fails: Fails) -> Result<Option<(bool, Bytes)>, Memory> {
    match joiner.missing() {
        Some(_) => Ok(None),
        None => {
            let mut wire = MemoryWire::new(alloc, 20_000, fails)?;
            let done = joiner.put_all(&mut wire);
            Ok(Some((done, Bytes::from_slice(alloc, wire.sent())?)))
        }
    }
}

/// The bytes of words: `A*600` is 600 bytes `A`, `~` is CR LF, and `,` stands between two words.
pub fn bytes_of(alloc: Global, words: &str) -> Result<Vec<u8>, Fail> {
    let mut bytes = Vec::new(alloc);
    for word in words.split(',') {
        let (letters, count) = word.split_once('*').unwrap_or((word, "1"));
        for _ in 0..count.parse::<usize>()? {
            let text = if letters == "~" { "\r\n" } else { letters };
            bytes.extend_from_slice(text.as_bytes())?;
        }
    }
    Ok(bytes)
}

/// The frame of a line: call, index, count, the length that it says, what bytes 14 and 15 have, and its bytes.
pub fn frame_of(alloc: Global, line: &str) -> Result<Vec<u8>, Fail> {
    let mut words = line.split_whitespace();
    let mut frame = Vec::new(alloc);
    for _ in 0..3 {
        let number = words.next().unwrap_or("").parse::<u32>()?;
        frame.extend_from_slice(&number.to_le_bytes())?;
    }
    for _ in 0..2 {
        let number = words.next().unwrap_or("").parse::<u16>()?;
        frame.extend_from_slice(&number.to_le_bytes())?;
    }
    let bytes = bytes_of(alloc, words.next().unwrap_or(""))?;
    frame.extend_from_slice(bytes.as_slice())?;
    Ok(frame)
}

/// The frames of `+OK` and of 600 bytes `A`, at most 64 bytes each.
pub fn two_replies(alloc: Global) -> Result<Vec<Vec<u8>>, Fail> {
    let mut frames = Vec::new(alloc);
    frames.push(frame_of(alloc, "0 0 1 5 0 +OK,~")?)?;
    frames.push(frame_of(alloc, "1 0 13 48 0 $600,~,A*42")?)?;
    for index in 1..12u32 {
        let line = format!(in alloc; "1 {index} 13 48 0 A*48")?;
        frames.push(frame_of(alloc, line.as_str())?)?;
    }
    frames.push(frame_of(alloc, "1 12 13 32 0 A*30,~")?)?;
    Ok(frames)
}

/// What the two replies are.
pub const TWO_REPLIES: &str = "+OK,~,$600,~,A*600,~";
