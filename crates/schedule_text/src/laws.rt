//! What the definitions imply.
ghost use Rattle.std.specs.Prelude.{◌≡◌, ◌≤◌, ◌^◌, List, ℕ, map};
ghost use Rattle.journal_text.specs.Lines.{lines_of};
ghost use Rattle.schedule_text.specs.declared.line.Line.{Line};
ghost use Rattle.schedule_text.specs.Text.{schedule_line, schedule_text_of};
ghost use Rattle.schedule_text.specs.Reading.{AreScheduleLines};

/// A schedule's text has its lines: what is written is read back.
pub fn text_has_lines()
    ensures { (schedule : List Line) → lines_of (schedule_text_of schedule) ≡ map schedule_line schedule }
{}

/// No two schedules have the same lines.
pub fn one_schedule()
    ensures { (sessions : ℕ) (lines : List (List ℕ)) (schedule other : List Line) → sessions ≤ 2 ^ 16
        → AreScheduleLines sessions lines schedule → AreScheduleLines sessions lines other → schedule ≡ other }
{}
