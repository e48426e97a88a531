ghost use Rattle.std.specs.Prelude.{◌≡◌, IfOk, IfSome, map, option_map};
ghost use Rattle.clap.specs.Matches.{found_of};
ghost use Rattle.clap.specs.Walk.{rows_of};
ghost use Rattle.command_line.specs.Drive.{IsDrivable, drive_in, drive_of, is_drive_of, shown_drive};
ghost use Rattle.command_line.specs.Task.{word_texts};

use crate::command::drive_matches;
use crate::named::begins_with;
use crate::sizes::{SizeOptions, sizes_in};
use crate::task::files_in;
use clap::ArgMatches;
use flake_base::Memory;
use std::alloc::Global;

/// The files that are driven by a schedule, and the sizes to drive them with.
#[derive(Debug, Drop)]
pub struct DriveTask<'a> {
    /// The schedule's name, and then those of the files whose requests are served, in the order of the words.
    pub files: Vec<&'a str>,
    pub sizes: SizeOptions,
}

/// The task that the words behind the program's name ask for, of which the first is `drive`; none where they are bad
/// words.
pub fn drive_task<'a>(alloc: Global, words: &'a [String]) -> Result<Option<DriveTask<'a>>, Memory>
    ensures value { IfOk result (λ task. option_map shown_drive task ≡ drive_of (word_texts words.entry.now)) }
    ensures allowed { IfOk result (λ task. IfSome task (λ t. IsDrivable (shown_drive t))) }
{
    if !begins_with(words, "drive") {
        return Ok(None);
    }
    match drive_matches(alloc, words)? {
        Some(matches) => drive_in(alloc, &matches),
        None => Ok(None),
    }
}

// The task, if its sizes and the number of files fit.
fn drive_in<'a>(alloc: Global, matches: &ArgMatches<'a>) -> Result<Option<DriveTask<'a>>, Memory>
    ensures value { IfOk result (λ task. option_map shown_drive task ≡ drive_in (rows_of (found_of matches.now))) }
    ensures allowed { IfOk result (λ task. IfSome task (λ t. IsDrivable (shown_drive t))) }
{
    let Some(sizes) = sizes_in(matches) else {
        return Ok(None);
    };
    let files = files_in(alloc, matches)?;
    if is_drive_of(files.as_slice(), &sizes) {
        Ok(Some(DriveTask { files, sizes }))
    } else {
        Ok(None)
    }
}

// There are a schedule and 1 to 16 files, and 128 small buffers for each of these.
fn is_drive_of(files: &[&str], sizes: &SizeOptions) -> bool
    ensures { result ≡ is_drive_of (map (λ file. file.now) files.now) sizes.now }
{
    match files.len() {
        count @ 2..=17 => 128 * (count - 1) <= sizes.small as usize,
        _ => false,
    }
}
