// What is said of a line.
ghost use Rattle.std.specs.Prelude.{◌≡◌, ◌+◌, ◌*◌, ◌≤◌, length, vec_capacity};
ghost use Rattle.transcript_model.specs.Lines.{transcript_line};
ghost use Rattle.transcript_model.specs.Told.{said, line_room};
ghost use Rattle.drive_script.specs.Happened.{line_event};

use crate::happened::Happened;
use flake_base::Seg;
use transcript_model as line;

/// Writes the line of what happened to a session, in the place of what stands there. Where a call was posted, `sent`
/// are its segments, and `stored` the fragments that were stored.
pub fn tell(text: &mut Vec<u8>, session: u16, happened: Happened, sent: &[Seg], stored: &[Seg])
    requires { line_room + 42 * (length sent.now + length stored.now) ≤ vec_capacity text.old }
    ensures text { text.new.items ≡ transcript_line (said session (line_event happened sent.now stored.now)) }
    ensures room { vec_capacity text.old ≤ vec_capacity text.new }
{
    match happened {
        Happened::Posted { call, reaped } => {
            line::posted(text, session, call, reaped, sent, stored);
        }
        Happened::RingFull { need, room } => line::ring_full(text, session, need, room),
        Happened::StageFull { need, free } => line::stage_full(text, session, need, free),
        Happened::AtEnd => line::at_end(text, session),
        Happened::Sent { call, bytes } => line::sent(text, session, call, bytes),
        Happened::Dropped { call, bytes } => line::dropped(text, session, call, bytes),
        Happened::NothingPosted => line::nothing_posted(text, session),
        Happened::Reaped { call, recycled } => line::reaped(text, session, call, recycled),
        Happened::NothingReaped => line::nothing_reaped(text, session),
    }
}
