// The lines of sessions, that of a dump, and that of what is held.
ghost use Rattle.std.specs.Prelude.{◌≡◌, ◌+◌, ◌<◌, ◌≤◌, ◌++◌, ◌∷◌, [], length, vec_capacity, vec_len};
ghost use Rattle.flake_model.specs.Said.{end_text, session_line};
ghost use Rattle.report_text.specs.Report.{held_line, report_room, summary_of};

use crate::dump::{DumpLine, put_dump};
use crate::put::{put, put_field, put_number, put_state};
use flake_base::{End, SessionEnd};
use pin_core::Held;

// How a session ended.
fn put_end(text: &mut Vec<u8>, end: End)
    requires { vec_len text.old + 53 ≤ vec_capacity text.old }
    ensures items { text.new.items ≡ text.old.items ++ end_text end }
    ensures len { vec_len text.new ≤ vec_len text.old + 53 }
    ensures capacity { vec_capacity text.old ≤ vec_capacity text.new }
{
    match end {
        End::Clean => put(text, b"clean"),
        End::Protocol { kind, place } => {
            put(text, b"protocol ");
            put_number(text, u64::from(kind));
            put(text, b" at ");
            put_number(text, place);
        }
        End::Truncated { place } => {
            put(text, b"truncated at ");
            put_number(text, place);
        }
        End::TooLong => put(text, b"toolong"),
        End::ReadFault => put(text, b"readfault"),
        End::Memory => put(text, b"memory"),
        End::Left => put(text, b"left"),
    }
}

// A session's line.
fn put_session(text: &mut Vec<u8>, session: u64, end: &SessionEnd)
    requires { vec_len text.old + 152 ≤ vec_capacity text.old }
    ensures items { text.new.items ≡ text.old.items ++ session_line session end.now }
    ensures len { vec_len text.new ≤ vec_len text.old + 152 }
    ensures capacity { vec_capacity text.old ≤ vec_capacity text.new }
{
    put(text, b"session ");
    put_field(text, session, b' ');
    put_end(text, end.end);
    put(text, b" taken ");
    put_number(text, end.taken);
    put(text, b" replies ");
    put_number(text, u64::from(end.replies));
    put(text, b" wire ");
    put_state(text, end.failed);
}

// The line of what is held.
fn put_held(text: &mut Vec<u8>, held: Held)
    requires { vec_len text.old + 47 ≤ vec_capacity text.old }
    ensures items { text.new.items ≡ text.old.items ++ held_line held }
    ensures some { 1 ≤ vec_len text.new }
{
    put(text, b"held ");
    put_field(text, u64::from(held.small), b' ');
    put_field(text, u64::from(held.large), b'\n');
}

/// Writes the line of each session, that of a dump where one was asked for, and that of what is held, in the place of
/// what stands there.
pub fn put_summary(text: &mut Vec<u8>, ends: &[SessionEnd], dump: DumpLine, held: Held)
    requires room { report_room ≤ vec_capacity text.old }
    requires few { length ends.now ≤ 16 }
    ensures text { text.new.items ≡ summary_of ends.now dump held }
    ensures some { 0 < length text.new.items }
{
    text.clear();
    for (session, end) in ends.iter().enumerate() {
        put_session(text, session as u64, end);
    }
    put_dump(text, dump);
    put_held(text, held);
}
