ghost use Rattle.std.specs.Prelude.{◌≡◌, ◌≢◌, ◌<◌, ℕ, IfOk, IfErr, IfSome, IsNone};
ghost use Rattle.std.specs.Fmt.{decimal};
ghost use Rattle.journal_text.specs.Lines.{lines_of};
ghost use Rattle.schedule_text.specs.declared.line.Line.{Line as Asked};
ghost use Rattle.schedule_text.specs.Text.{schedule_line, line_session};
ghost use Rattle.schedule_text.specs.Reading.{AreScheduleLines, IsScheduleFault};

use crate::error::ScheduleError;
use crate::line::{Line, Schedule};
use journal_text::{first_line, number};
use std::alloc::Global;

/// The schedule, for so many sessions, whose text it is; the last line may lack its LF.
pub fn read_schedule(alloc: Global, text: &[u8], sessions: u16) -> Result<Schedule, ScheduleError>
    ensures ok { IfOk result (λ schedule. AreScheduleLines sessions (lines_of text.now) schedule.items) }
    ensures err { IfErr result (IsScheduleFault sessions (lines_of text.now)) }
{
    let mut schedule = Schedule::new(alloc);
    let mut rest = text;
    let mut line: u64 = 0;
    while let Some((words, behind)) = first_line(rest) {
        line += 1;
        match asked(words, sessions) {
            Some(asked) => schedule.push(asked)?,
            None => return Err(ScheduleError::BadLine { line }),
        }
        rest = behind;
    }
    Ok(schedule)
}

// What a line asks for.
fn asked(line: &[u8], sessions: u16) -> Option<Line>
    ensures some { IfSome result (λ asked. (line.now ≡ schedule_line asked) × (line_session asked < sessions)) }
    ensures none { IsNone result → (asked : Asked) → line_session asked < sessions → line.now ≢ schedule_line asked }
{
    if let Some(word) = line.strip_prefix(b"call ") {
        return Some(Line::Call(session(word, sessions)?));
    }
    if let Some(word) = line.strip_prefix(b"gather ") {
        return Some(Line::Gather(session(word, sessions)?));
    }
    let word = line.strip_prefix(b"reap ")?;
    Some(Line::Reap(session(word, sessions)?))
}

// The number of one of so many sessions.
fn session(word: &[u8], sessions: u16) -> Option<u16>
    ensures some { IfSome result (λ n. (n < sessions) × (word.now ≡ decimal n)) }
    ensures none { IsNone result → (n : ℕ) → n < sessions → word.now ≢ decimal n }
{
    Some(number(word, u64::from(sessions))? as u16)
}
