//! Lines of transcripts.
use flake_base::Seg;
use std::alloc::Global;
use std::test::Fail;
use transcript_model::{
    at_end, dropped, nothing_posted, nothing_reaped, posted, reaped, ring_full, sent, stage_full,
};

// Room for a line of so many segments, in which something stands.
fn room(alloc: Global) -> Result<Vec<u8>, Fail> {
    let mut text = Vec::with_capacity(alloc, 1000)?;
    text.extend_from_slice(b"what stood there")?;
    Ok(text)
}

fn seg(address: u64, len: u32) -> Seg {
    Seg { address, len }
}

// Writes each kind of line of a call that was posted.
fn post(text: &mut Vec<u8>, kind: usize) {
    if text.capacity() < 1000 {
        return;
    }
    match kind {
        0 => posted(text, 0, 0, 0, &[seg(1_048_576, 5)], &[seg(1_179_648, 1)]),
        1 => {
            let sent = [seg(1_114_112, 4), seg(1_179_648, 1), seg(1_114_116, 2)];
            posted(text, 1, 0, 0, &sent, &[]);
        }
        _ => posted(text, 0, 128, 1, &[seg(1_048_576, 7)], &[]),
    }
}

// Writes each other kind of line once.
fn tell(text: &mut Vec<u8>, kind: usize) {
    if text.capacity() < 1000 {
        return;
    }
    match kind {
        3 => ring_full(text, 0, 1154, 1032),
        4 => stage_full(text, 0, 1, 0),
        5 => at_end(text, 15),
        6 => sent(text, 0, 1, 608),
        7 => dropped(text, 0, 2, 7),
        8 => nothing_posted(text, 3),
        9 => reaped(text, 0, 1, 1),
        _ => nothing_reaped(text, 0),
    }
}

fn told(alloc: Global, kind: usize) -> Result<Vec<u8>, Fail> {
    let mut text = room(alloc)?;
    if kind < 3 {
        post(&mut text, kind);
    } else {
        tell(&mut text, kind);
    }
    Ok(text)
}

static LINES: [&[u8]; 11] = [
    b"call 0 0 send 1048576:5 store 1179648:1\n",
    b"call 1 0 send 1114112:4 1179648:1 1114116:2\n",
    b"call 0 128 reaped 1 send 1048576:7\n",
    b"call 0 ring 1154 1032\n",
    b"call 0 stage 1 0\n",
    b"call 15 end\n",
    b"gather 0 1 608\n",
    b"gather 0 2 dropped 7\n",
    b"gather 3 empty\n",
    b"reap 0 1 1\n",
    b"reap 0 none\n",
];

#[test]
fn lines_are_written(rt: HostRuntime) -> Result<(), Fail> {
    for (kind, line) in LINES.iter().enumerate() {
        let text = told(rt.alloc(), kind)?;
        assert_eq!(rt; text.as_slice(), *line);
    }
    Ok(())
}
