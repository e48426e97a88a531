ghost use Rattle.std.specs.Prelude.{◌≡◌, IfSome};
ghost use Rattle.clap.specs.Matches.{found_of};
ghost use Rattle.clap.specs.Walk.{rows_of};
ghost use Rattle.command_line.specs.GenerateTask.{IsAllowedGenerated, generated_task_in};

use crate::numbers::{number_in, number_or};
use clap::ArgMatches;

/// A number from which the requests of some sessions are generated, and how many workers serve these.
#[derive(Clone, Copy, Debug, PartialEq, Eq)]
pub struct GenTask {
    pub number: u32,
    pub sessions: u16,
    /// How many requests each session has.
    pub requests: u32,
    pub workers: u16,
}

/// The task that the words ask for, if their numbers fit. There are as many workers as sessions, where the words don't
/// say.
pub(crate) fn task_in(matches: &ArgMatches<'_>) -> Option<GenTask>
    ensures value { result ≡ generated_task_in (rows_of (found_of matches.now)) }
    ensures allowed { IfSome result IsAllowedGenerated }
{
    let sessions = number_or(matches, "sessions", 16, 4)?;
    let number = number_in(matches, "number", u32::MAX)?;
    let requests = number_or(matches, "requests", 4000, 1000)?;
    let workers = number_or(matches, "workers", 16, sessions)?;
    Some(GenTask {
        number,
        sessions: sessions as u16,
        requests,
        workers: workers as u16,
    })
}
