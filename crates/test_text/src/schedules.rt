use crate::checks::{equal, holds};
use schedule_text::{Line, ScheduleError, read_schedule};
use std::alloc::Global;
use std::test::Fail;

#[test]
fn schedules_are_read(rt: HostRuntime) -> Result<(), Fail> {
    let nothing = read_schedule(rt.alloc(), b"", 0)?;
    holds(&rt, "no line", nothing.is_empty());
    // The last line has its LF, or lacks it.
    for text in [
        b"call 0\ngather 15\nreap 9\ncall 10\n".as_slice(),
        b"call 0\ngather 15\nreap 9\ncall 10".as_slice(),
    ] {
        let schedule = read_schedule(rt.alloc(), text, 16)?;
        let expected = [
            Line::Call(0),
            Line::Gather(15),
            Line::Reap(9),
            Line::Call(10),
        ];
        equal(&rt, "lines", schedule.as_slice(), expected.as_slice());
    }
    let first = read_schedule(rt.alloc(), b"gather 0", 1)?;
    equal(
        &rt,
        "a line",
        first.as_slice(),
        [Line::Gather(0)].as_slice(),
    );
    Ok(())
}

/// Texts for three sessions, by their first bad line; `/` is between two.
static BAD_LINES: [(u64, &str); 10] = [
    (1, "\n/\ncall 0\n"),
    (2, "call 0\n\n/call 0\n\ncall 1\n"),
    (4, "call 0\ngather 1\nreap 2\nreap\n"),
    // a blank more
    (
        1,
        "call  0\n/ call 0\n/call 0 \n/gather  0\n/ gather 0\n/gather 0 \n/reap  0\n/ reap 0\n/reap 0 \n",
    ),
    // a blank less, or another byte
    (
        1,
        "call0\n/gather0\n/reap0\n/call\t0\n/gather\t0\n/reap\t0\n/call 0\r\n",
    ),
    // a sign
    (
        1,
        "call +0\n/call -0\n/gather +1\n/gather -1\n/reap +2\n/reap -2\n",
    ),
    // a leading zero
    (1, "call 00\n/gather 01\n/reap 02\n"),
    // no number, or more than one
    (
        1,
        "call\n/call \n/gather\n/gather \n/reap \n/call a\n/call 0x0\n/call 0 1\n",
    ),
    // no such session; another word
    (
        1,
        "call 3\n/gather 3\n/reap 3\n/Call 0\n/calls 0\n/read 0\n/0\n",
    ),
    (
        2,
        "call 2\ncall 65536\n/call 2\ncall 18446744073709551616\n/call 0\nheld 0 0\n",
    ),
];

// Which line is bad. It has no clauses, so that no assertion carries those of `read_schedule`.
fn bad_line(alloc: Global, text: &[u8], sessions: u16) -> Option<u64> {
    match read_schedule(alloc, text, sessions) {
        Err(ScheduleError::BadLine { line }) => Some(line),
        _ => None,
    }
}

#[test]
fn bad_lines_are_named(rt: HostRuntime) {
    for (line, texts) in &BAD_LINES {
        for text in texts.split('/') {
            let found = bad_line(rt.alloc(), text.as_bytes(), 3);
            equal(&rt, text, found, Some(*line));
        }
    }
    // No session is below none.
    equal(
        &rt,
        "no session",
        bad_line(rt.alloc(), b"call 0\n", 0),
        Some(1),
    );
}

#[test]
fn a_line_has_its_session(rt: HostRuntime) {
    let lines = [Line::Call(3), Line::Gather(0), Line::Reap(15)];
    let sessions = lines.map(|line| line.session());
    equal(&rt, "sessions", sessions, [3, 0, 15]);
}
