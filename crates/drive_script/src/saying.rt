// What is said, until a say fails.
ghost use Rattle.std.specs.Prelude.{◌<◌, ◌≤◌, ◌++◌, ◌∷◌, [], IfOk, length, vec_capacity};
ghost use Rattle.std.specs.List.{flat_map};
ghost use Rattle.transcript_model.specs.Lines.{transcript_line, segment_text, stored_text};
ghost use Rattle.transcript_model.specs.Told.{said, line_room};
ghost use Rattle.drive_script.specs.Happened.{line_event};
ghost use Rattle.drive_script.specs.Says.{PrintsText, text_room};

use crate::happened::Happened;
use crate::telling::tell;
use flake_base::{Host, Memory, Seg};
use std::alloc::Global;
use transcript_model as line;

/// The segments and fragments of a line that is said at once. Longer lines are said in pieces.
const MOST_SEGMENTS: usize = 4095;

const MOST_FRAGMENTS: usize = 16;

/// The bytes of such a line.
const TEXT_ROOM: usize = 172_763;

/// Room for one line.
#[derive(Drop)]
pub struct LineRoom {
    pub sent: Vec<Seg>,
    pub stored: Vec<Seg>,
    pub text: Vec<u8>,
}

impl LineRoom {
    pub fn new(alloc: Global) -> Result<Self, Memory>
        ensures { IfOk result (λ room. text_room ≤ vec_capacity room.text) }
    {
        Ok(LineRoom {
            sent: Vec::new(alloc),
            stored: Vec::new(alloc),
            text: Vec::with_capacity(alloc, TEXT_ROOM)?,
        })
    }
}

/// Says the line of what happened to a session.
pub(crate) fn say_line<H: Host>(
    host: &mut H,
    failed: bool,
    room: &mut LineRoom,
    session: u16,
    happened: Happened,
) -> bool
    requires { text_room ≤ vec_capacity room.old.text }
    ensures said { PrintsText failed result
        (transcript_line (said session (line_event happened room.old.sent.items room.old.stored.items)))
        (H.host_told host.old) (H.host_told host.new) }
    ensures room { text_room ≤ vec_capacity room.new.text }
{
    let sent = room.sent.as_slice();
    let stored = room.stored.as_slice();
    if sent.len() > MOST_SEGMENTS || stored.len() > MOST_FRAGMENTS {
        return say_long(
            host,
            failed,
            &mut room.text,
            session,
            happened,
            sent,
            stored,
        );
    }
    tell(&mut room.text, session, happened, sent, stored);
    say(host, failed, room.text.as_slice())
}

// A line that may be longer than the room.
fn say_long<H: Host>(
    host: &mut H,
    failed: bool,
    text: &mut Vec<u8>,
    session: u16,
    happened: Happened,
    sent: &[Seg],
    stored: &[Seg],
) -> bool
    requires { text_room ≤ vec_capacity text.old }
    ensures said { PrintsText failed result (transcript_line (said session (line_event happened sent.now stored.now)))
        (H.host_told host.old) (H.host_told host.new) }
    ensures room { vec_capacity text.old ≤ vec_capacity text.new }
{
    match happened {
        Happened::Posted { call, reaped } => {
            line::posted_front(text, session, call, reaped);
            let failed = say(host, failed, text.as_slice());
            say_lists(host, failed, text, sent, stored)
        }
        _ => {
            tell(text, session, happened, &[], &[]);
            say(host, failed, text.as_slice())
        }
    }
}

// The segments and fragments of a line, and its end.
fn say_lists<H: Host>(
    host: &mut H,
    failed: bool,
    text: &mut Vec<u8>,
    sent: &[Seg],
    stored: &[Seg],
) -> bool
    requires { line_room ≤ vec_capacity text.old }
    ensures said { PrintsText failed result (flat_map segment_text sent.now ++ stored_text stored.now ++ 10 ∷ [])
        (H.host_told host.old) (H.host_told host.new) }
    ensures room { vec_capacity text.old ≤ vec_capacity text.new }
{
    let failed = say_segments(host, failed, text, sent);
    let failed = say_stored(host, failed, text, stored);
    say(host, failed, b"\n")
}

fn say_stored<H: Host>(host: &mut H, failed: bool, text: &mut Vec<u8>, stored: &[Seg]) -> bool
    requires { line_room ≤ vec_capacity text.old }
    ensures said { PrintsText failed result (stored_text stored.now) (H.host_told host.old) (H.host_told host.new) }
    ensures room { vec_capacity text.old ≤ vec_capacity text.new }
{
    if stored.is_empty() {
        return failed;
    }
    let failed = say(host, failed, b" store");
    say_segments(host, failed, text, stored)
}

fn say_segments<H: Host>(host: &mut H, failed: bool, text: &mut Vec<u8>, segments: &[Seg]) -> bool
    requires { line_room ≤ vec_capacity text.old }
    ensures said { PrintsText failed result (flat_map segment_text segments.now)
        (H.host_told host.old) (H.host_told host.new) }
    ensures room { vec_capacity text.old ≤ vec_capacity text.new }
{
    let mut failed = failed;
    for segment in segments {
        line::one_segment(text, segment);
        failed = say(host, failed, text.as_slice());
    }
    failed
}

/// Says a text, unless a say failed before. Answers whether one has failed.
pub(crate) fn say<H: Host>(host: &mut H, failed: bool, text: &[u8]) -> bool
    requires { 0 < length text.now }
    ensures { PrintsText failed result text.now (H.host_told host.old) (H.host_told host.new) }
{
    failed || host.say(text).is_err()
}
