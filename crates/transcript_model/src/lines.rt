// Lines, each in the place of what stood there.
ghost use Rattle.std.specs.Prelude.{◌≡◌, ◌+◌, ◌*◌, ◌≤◌, length, vec_capacity};
ghost use Rattle.transcript_model.specs.Lines as event;
ghost use Rattle.transcript_model.specs.Lines.{transcript_line, segment_text};
ghost use Rattle.transcript_model.specs.Told.{said, front_text, line_room};

use crate::parts::{put, put_numbers, put_reaped, put_segment, put_segments, put_stored};
use flake_base::Seg;

/// A call was posted, behind so many reaps.
pub fn posted(
    text: &mut Vec<u8>,
    session: u16,
    call: u32,
    reaped: u32,
    sent: &[Seg],
    stored: &[Seg],
)
    requires { line_room + 42 * (length sent.now + length stored.now) ≤ vec_capacity text.old }
    ensures text { text.new.items ≡ transcript_line (said session (event.posted call reaped sent.now stored.now)) }
    ensures room { vec_capacity text.old ≤ vec_capacity text.new }
{
    text.clear();
    put(text, b"call");
    put_numbers(text, &[u64::from(session), u64::from(call)]);
    put_reaped(text, reaped);
    put(text, b" send");
    put_segments(text, sent);
    put_stored(text, stored);
    put(text, b"\n");
}

/// The front of such a line, before its segments.
pub fn posted_front(text: &mut Vec<u8>, session: u16, call: u32, reaped: u32)
    requires { line_room ≤ vec_capacity text.old }
    ensures text { text.new.items ≡ front_text session call reaped }
    ensures room { vec_capacity text.old ≤ vec_capacity text.new }
{
    text.clear();
    put(text, b"call");
    put_numbers(text, &[u64::from(session), u64::from(call)]);
    put_reaped(text, reaped);
    put(text, b" send");
}

/// One of its segments.
pub fn one_segment(text: &mut Vec<u8>, segment: &Seg)
    requires { line_room ≤ vec_capacity text.old }
    ensures text { text.new.items ≡ segment_text segment.now }
    ensures room { vec_capacity text.old ≤ vec_capacity text.new }
{
    text.clear();
    put_segment(text, segment);
}

/// A call needs so many descriptors, and so many are free.
pub fn ring_full(text: &mut Vec<u8>, session: u16, need: u32, room: u32)
    requires { line_room ≤ vec_capacity text.old }
    ensures text { text.new.items ≡ transcript_line (said session (event.ring_full need room)) }
    ensures room { vec_capacity text.old ≤ vec_capacity text.new }
{
    text.clear();
    put(text, b"call");
    put_numbers(text, &[u64::from(session)]);
    put(text, b" ring");
    put_numbers(text, &[u64::from(need), u64::from(room)]);
    put(text, b"\n");
}

/// A call needs so many staging buffers, and so many are free.
pub fn stage_full(text: &mut Vec<u8>, session: u16, need: u32, free: u32)
    requires { line_room ≤ vec_capacity text.old }
    ensures text { text.new.items ≡ transcript_line (said session (event.stage_full need free)) }
    ensures room { vec_capacity text.old ≤ vec_capacity text.new }
{
    text.clear();
    put(text, b"call");
    put_numbers(text, &[u64::from(session)]);
    put(text, b" stage");
    put_numbers(text, &[u64::from(need), u64::from(free)]);
    put(text, b"\n");
}

/// There is no further call.
pub fn at_end(text: &mut Vec<u8>, session: u16)
    requires { line_room ≤ vec_capacity text.old }
    ensures text { text.new.items ≡ transcript_line (said session event.at_end) }
    ensures room { vec_capacity text.old ≤ vec_capacity text.new }
{
    text.clear();
    put(text, b"call");
    put_numbers(text, &[u64::from(session)]);
    put(text, b" end");
    put(text, b"\n");
}

/// A reply of so many bytes was sent.
pub fn sent(text: &mut Vec<u8>, session: u16, call: u32, bytes: u64)
    requires { line_room ≤ vec_capacity text.old }
    ensures text { text.new.items ≡ transcript_line (said session (event.sent call bytes)) }
    ensures room { vec_capacity text.old ≤ vec_capacity text.new }
{
    text.clear();
    put(text, b"gather");
    put_numbers(text, &[u64::from(session), u64::from(call), bytes]);
    put(text, b"\n");
}

/// It was dropped.
pub fn dropped(text: &mut Vec<u8>, session: u16, call: u32, bytes: u64)
    requires { line_room ≤ vec_capacity text.old }
    ensures text { text.new.items ≡ transcript_line (said session (event.dropped call bytes)) }
    ensures room { vec_capacity text.old ≤ vec_capacity text.new }
{
    text.clear();
    put(text, b"gather");
    put_numbers(text, &[u64::from(session), u64::from(call)]);
    put(text, b" dropped");
    put_numbers(text, &[bytes]);
    put(text, b"\n");
}

/// There was none to gather.
pub fn nothing_posted(text: &mut Vec<u8>, session: u16)
    requires { line_room ≤ vec_capacity text.old }
    ensures text { text.new.items ≡ transcript_line (said session event.nothing_posted) }
    ensures room { vec_capacity text.old ≤ vec_capacity text.new }
{
    text.clear();
    put(text, b"gather");
    put_numbers(text, &[u64::from(session)]);
    put(text, b" empty");
    put(text, b"\n");
}

/// A reply was reaped, and so many of its holds were the last of their buffers.
pub fn reaped(text: &mut Vec<u8>, session: u16, call: u32, recycled: u64)
    requires { line_room ≤ vec_capacity text.old }
    ensures text { text.new.items ≡ transcript_line (said session (event.reaped call recycled)) }
    ensures room { vec_capacity text.old ≤ vec_capacity text.new }
{
    text.clear();
    put(text, b"reap");
    put_numbers(text, &[u64::from(session), u64::from(call), recycled]);
    put(text, b"\n");
}

/// There was none to reap.
pub fn nothing_reaped(text: &mut Vec<u8>, session: u16)
    requires { line_room ≤ vec_capacity text.old }
    ensures text { text.new.items ≡ transcript_line (said session event.nothing_reaped) }
    ensures room { vec_capacity text.old ≤ vec_capacity text.new }
{
    text.clear();
    put(text, b"reap");
    put_numbers(text, &[u64::from(session)]);
    put(text, b" none");
    put(text, b"\n");
}
