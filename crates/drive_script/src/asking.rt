// What a driven session is asked.
ghost use Rattle.std.specs.Prelude.{◌≡◌, ℕ, List, Option, None, IfOk, IfErr, length};
ghost use Rattle.flake_model.specs.Command.{Command as Meaning};
ghost use Rattle.command_pump.specs.Pump.{Origin, HasEnded};
ghost use Rattle.drive_script.specs.Asked.{MayGiveMore, AsksNext};
ghost use Rattle.drive_script.specs.Refused.{refused_so, kept_back, ended_by};

use crate::happened::Happened;
use command_parts::Command;
use command_pump::Pump;
use flake_base::{End, Source};
use session_pass::CallError;

/// Where a session's commands come from.
#[derive(Drop)]
pub struct Asking<S: Source> {
    pub pump: Pump<S>,
    /// The command that ring or stage had no room for: it is called again.
    pub kept: Option<Command>,
    /// How the session ended, once that was said.
    pub end: Option<End>,
}

impl<S: Source> Asking<S> {
    /// The next command, or how the input ended.
    pub(crate) fn next(&mut self) -> Result<Command, End>
        ensures command { IfOk result (λ command. (origin : Origin) (before : ℕ) (given : List Meaning)
            (posted : ℕ) → MayGiveMore origin before given posted self.old.kept self.old.pump
            → AsksNext origin before given posted command self.new.pump) }
        ensures ended { IfErr result (λ end. (origin : Origin) (before : ℕ) (given : List Meaning)
            (posted : ℕ) → MayGiveMore origin before given posted self.old.kept self.old.pump
            → HasEnded origin before given end self.new.pump × (length given ≡ posted)) }
        ensures kept { self.new.kept ≡ None }
        ensures end { self.new.end ≡ self.old.end }
    {
        match self.kept.take() {
            Some(command) => Ok(command),
            None => self.pump.next(),
        }
    }

    /// A command's call posted nothing: it is kept back, or the session ends.
    pub(crate) fn refuse(&mut self, command: Command, error: CallError) -> Happened
        requires none { self.old.kept ≡ None }
        ensures happened { result ≡ refused_so error }
        ensures kept { self.new.kept ≡ kept_back command error }
        ensures end { self.new.end ≡ ended_by error self.old.end }
        ensures pump { self.new.pump ≡ self.old.pump }
    {
        match error {
            CallError::RingFull { need, room } => {
                self.kept = Some(command);
                Happened::RingFull { need, room }
            }
            CallError::StageFull { need, free } => {
                self.kept = Some(command);
                Happened::StageFull { need, free }
            }
            CallError::Memory => {
                self.end = Some(End::Memory);
                self.pump.give_back(command);
                Happened::AtEnd
            }
        }
    }
}
