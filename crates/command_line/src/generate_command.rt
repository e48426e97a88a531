// The command line of `gen`, as a command.
ghost use Rattle.std.specs.Prelude.{◌≡◌, IfOk, false, option_map};
ghost use Rattle.clap.specs.Matches.{found_of};
ghost use Rattle.clap.specs.Simple.{app_of};
ghost use Rattle.clap.specs.Walk.{rows_of, rule_of};
ghost use Rattle.command_line.specs.Command.{option_rule};
ghost use Rattle.command_line.specs.Task.{word_texts};
ghost use Rattle.command_line.specs.GenerateCommand.{bare_gen_command, gen_command, rows_in};

use clap::error::ErrorKind;
use clap::{Arg, ArgMatches, Command};
use flake_base::Memory;
use std::alloc::{AllocError, Global};

/// What the words say, by the names of the options; none where they don't fit the command.
pub(crate) fn matches_of_words<'a>(
    alloc: Global,
    words: &'a [String],
) -> Result<Option<ArgMatches<'a>>, Memory>
    ensures { IfOk result (λ matches. option_map (λ m. rows_of (found_of m)) matches
        ≡ rows_in (word_texts words.entry.now)) }
{
    let command = gen_command(alloc)?;
    match command.try_get_matches_from(words) {
        Ok(matches) => Ok(Some(matches)),
        Err(error) => match error.kind() {
            ErrorKind::OutOfMemory => Err(Memory),
            _ => Ok(None),
        },
    }
}

fn gen_command<'a>(alloc: Global) -> Result<Command<'a>, AllocError>
    ensures { IfOk result (λ command. app_of command ≡ gen_command) }
{
    let command = bare_command(alloc)
        .arg(named_option(alloc, "sessions"))?
        .arg(named_option(alloc, "requests"))?
        .arg(named_option(alloc, "workers"))?
        .arg(Arg::new(alloc, "number"))?;
    Ok(command)
}

// Neither help nor a version is offered.
fn bare_command<'a>(alloc: Global) -> Command<'a>
    ensures { app_of result ≡ bare_gen_command }
{
    Command::new(alloc, "gen")
        .disable_help_flag(true)
        .disable_version_flag(true)
}

// An option `--name VALUE`.
fn named_option<'a>(alloc: Global, name: &'a str) -> Arg<'a>
    ensures rule { rule_of result ≡ option_rule name.entry.now }
    ensures local { result.global ≡ false }
{
    Arg::new(alloc, name).long(name)
}
