// A schedule that is read whole.
ghost use Rattle.std.specs.Prelude.{◌≡◌, ◌≤◌, [], IfErr, IfOk, OnOk};
ghost use Rattle.flake_run.specs.Schedule.{HasSchedule, IsUndriven};

use crate::finding::Finding;
use check_files::{Unread, read_whole};
use flake_base::Source;
use schedule_text::{Schedule, ScheduleError, read_schedule};
use std::alloc::Global;

/// The most bytes of a schedule.
const LIMIT: usize = 67_108_864;

/// The schedule for so many sessions that a source has, all of whose bytes are its text; or why there is none. Its file
/// has number 0.
pub fn schedule_in<S: Source>(
    alloc: Global,
    source: &mut S,
    sessions: u16,
) -> Result<Schedule, Finding>
    requires { S.given source.old ≡ [] }
    ensures lines { IfOk result (λ lines. HasSchedule sessions (S.given source.new) (S.ended source.new) lines.items) }
    ensures calm { OnOk result (S.read_faults source.new ≡ S.read_faults source.old) }
    ensures undriven { IfErr result (λ finding. IsUndriven finding sessions (S.given source.new) (S.ended source.new)
        (S.read_faults source.old) (S.read_faults source.new)) }
    ensures name { S.name source.new ≡ S.name source.old }
    ensures whole { S.whole source.new ≡ S.whole source.old }
{
    let text = match read_whole(alloc, source, LIMIT) {
        Ok(text) => text,
        Err(Unread::Fault) => return Err(Finding::ReadFault(0)),
        Err(Unread::TooLarge) => return Err(Finding::TooLarge(0)),
        Err(Unread::Memory) => return Err(Finding::Memory),
    };
    match read_schedule(alloc, text.as_slice(), sessions) {
        Ok(lines) => Ok(lines),
        Err(ScheduleError::BadLine { line }) => Err(Finding::BadLine(line)),
        Err(ScheduleError::Memory) => Err(Finding::Memory),
    }
}
