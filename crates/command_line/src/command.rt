// The command lines, as commands.
ghost use Rattle.std.specs.Prelude.{◌≡◌, IfOk, true, false, codes, option_map};
ghost use Rattle.clap.specs.Faults.{is_simple_and_free};
ghost use Rattle.clap.specs.Matches.{found_of};
ghost use Rattle.clap.specs.Simple.{app_of, is_simple};
ghost use Rattle.clap.specs.Walk.{rows_of, rule_of};
ghost use Rattle.command_line.specs.Command.{bare_command, check_command, drive_command, file_rule, flag_rule};
ghost use Rattle.command_line.specs.Command.{frames_command, join_command, option_rule, rows_by, serve_command};
ghost use Rattle.command_line.specs.Command.{sized_command};
ghost use Rattle.command_line.specs.Task.{word_texts};

use clap::error::ErrorKind;
use clap::{Arg, ArgAction, ArgMatches, Command};
use flake_base::Memory;
use std::alloc::{AllocError, Global};

/// What the words say to `serve`, by the names of the options; none where they don't fit the command.
pub(crate) fn serve_matches<'a>(
    alloc: Global,
    words: &'a [String],
) -> Result<Option<ArgMatches<'a>>, Memory>
    ensures { IfOk result (λ matches. option_map (λ m. rows_of (found_of m)) matches
        ≡ rows_by serve_command (word_texts words.entry.now)) }
{
    matches_by(serve_command(alloc)?, words)
}

/// What the words say to `frames`, by the names of the options; none where they don't fit the command.
pub(crate) fn frames_matches<'a>(
    alloc: Global,
    words: &'a [String],
) -> Result<Option<ArgMatches<'a>>, Memory>
    ensures { IfOk result (λ matches. option_map (λ m. rows_of (found_of m)) matches
        ≡ rows_by frames_command (word_texts words.entry.now)) }
{
    matches_by(frames_command(alloc)?, words)
}

/// What the words say to `check`; none where they don't fit the command.
pub(crate) fn check_matches<'a>(
    alloc: Global,
    words: &'a [String],
) -> Result<Option<ArgMatches<'a>>, Memory>
    ensures { IfOk result (λ matches. option_map (λ m. rows_of (found_of m)) matches
        ≡ rows_by check_command (word_texts words.entry.now)) }
{
    matches_by(check_command(alloc)?, words)
}

/// What the words say to `drive`, by the names of the options; none where they don't fit the command.
pub(crate) fn drive_matches<'a>(
    alloc: Global,
    words: &'a [String],
) -> Result<Option<ArgMatches<'a>>, Memory>
    ensures { IfOk result (λ matches. option_map (λ m. rows_of (found_of m)) matches
        ≡ rows_by drive_command (word_texts words.entry.now)) }
{
    matches_by(drive_command(alloc)?, words)
}

/// What the words say to `join`; none where they don't fit the command.
pub(crate) fn join_matches<'a>(
    alloc: Global,
    words: &'a [String],
) -> Result<Option<ArgMatches<'a>>, Memory>
    ensures { IfOk result (λ matches. option_map (λ m. rows_of (found_of m)) matches
        ≡ rows_by join_command (word_texts words.entry.now)) }
{
    matches_by(join_command(alloc)?, words)
}

// What the words say to a command of plain options and files.
fn matches_by<'a>(
    command: Command<'a>,
    words: &'a [String],
) -> Result<Option<ArgMatches<'a>>, Memory>
    requires simple { is_simple (app_of command) ≡ true }
    requires free { is_simple_and_free (app_of command) ≡ true }
    ensures { IfOk result (λ matches. option_map (λ m. rows_of (found_of m)) matches
        ≡ rows_by (app_of command.entry) (word_texts words.entry.now)) }
{
    match command.try_get_matches_from(words) {
        Ok(matches) => Ok(Some(matches)),
        Err(error) => match error.kind() {
            ErrorKind::OutOfMemory => Err(Memory),
            _ => Ok(None),
        },
    }
}

fn serve_command<'a>(alloc: Global) -> Result<Command<'a>, AllocError>
    ensures { IfOk result (λ command. app_of command ≡ serve_command) }
{
    let command = sized_command(alloc, "serve")?
        .arg(number_option(alloc, "workers"))?
        .arg(number_option(alloc, "dump"))?
        .arg(flag(alloc, "journal"))?
        .arg(files(alloc))?;
    Ok(command)
}

fn frames_command<'a>(alloc: Global) -> Result<Command<'a>, AllocError>
    ensures { IfOk result (λ command. app_of command ≡ frames_command) }
{
    let command = sized_command(alloc, "frames")?
        .arg(number_option(alloc, "workers"))?
        .arg(files(alloc))?;
    Ok(command)
}

fn drive_command<'a>(alloc: Global) -> Result<Command<'a>, AllocError>
    ensures { IfOk result (λ command. app_of command ≡ drive_command) }
{
    let command = sized_command(alloc, "drive")?.arg(files(alloc))?;
    Ok(command)
}

fn check_command<'a>(alloc: Global) -> Result<Command<'a>, AllocError>
    ensures { IfOk result (λ command. app_of command ≡ check_command) }
{
    bare_command(alloc, "check").arg(files(alloc))
}

fn join_command<'a>(alloc: Global) -> Result<Command<'a>, AllocError>
    ensures { IfOk result (λ command. app_of command ≡ join_command) }
{
    bare_command(alloc, "join").arg(files(alloc))
}

// The sizes of a run.
fn sized_command<'a>(alloc: Global, name: &'a str) -> Result<Command<'a>, AllocError>
    ensures { IfOk result (λ command. app_of command ≡ sized_command name.entry.now) }
{
    let command = bare_command(alloc, name)
        .arg(number_option(alloc, "shards"))?
        .arg(number_option(alloc, "small"))?
        .arg(number_option(alloc, "large"))?
        .arg(number_option(alloc, "ring"))?
        .arg(number_option(alloc, "threshold"))?;
    Ok(command)
}

// Neither help nor a version is offered.
fn bare_command<'a>(alloc: Global, name: &'a str) -> Command<'a>
    ensures { app_of result ≡ bare_command name.entry.now }
{
    Command::new(alloc, name)
        .disable_help_flag(true)
        .disable_version_flag(true)
}

// An option `--name VALUE`.
fn number_option<'a>(alloc: Global, name: &'a str) -> Arg<'a>
    ensures rule { rule_of result ≡ option_rule name.entry.now }
    ensures local { result.global ≡ false }
{
    Arg::new(alloc, name).long(name)
}

// An option `--name`.
fn flag<'a>(alloc: Global, name: &'a str) -> Arg<'a>
    ensures rule { rule_of result ≡ flag_rule name.entry.now }
    ensures local { result.global ≡ false }
{
    Arg::new(alloc, name).long(name).action(ArgAction::SetTrue)
}

// All words that are no options.
fn files<'a>(alloc: Global) -> Arg<'a>
    ensures rule { rule_of result ≡ file_rule }
    ensures local { result.global ≡ false }
{
    Arg::new(alloc, "file").action(ArgAction::Append)
}
