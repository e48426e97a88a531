ghost use Rattle.std.specs.Prelude.{◌≡◌, IfOk, IfSome, map, option_map};
ghost use Rattle.clap.specs.Matches.{found_of};
ghost use Rattle.clap.specs.Walk.{rows_of};
ghost use Rattle.command_line.specs.Task.{IsAllowed, files_in, fits_files, flag_in, task_shown, task_in};

use crate::sizes::{SizeOptions, dump_in, sizes_in, workers_in};
use clap::ArgMatches;
use flake_base::Memory;
use std::alloc::{AllocError, Global};

/// The files that are to be served, the sizes to serve them with, how many workers do it, when a dump is taken, and
/// whether the journal is what is said of it.
#[derive(Debug, Drop)]
pub struct ServeTask<'a> {
    /// Their names, in the order of the words.
    pub files: Vec<&'a str>,
    pub sizes: SizeOptions,
    pub workers: u16,
    /// The call of the first session before which a dump is taken, if one is.
    pub dump: Option<u32>,
    pub journal: bool,
}

/// The task that the words ask for, if their sizes and the number of files fit.
pub(crate) fn task_in<'a>(
    alloc: Global,
    matches: &ArgMatches<'a>,
) -> Result<Option<ServeTask<'a>>, Memory>
    ensures value { IfOk result (λ task. option_map task_shown task ≡ task_in (rows_of (found_of matches.now))) }
    ensures allowed { IfOk result (λ task. IfSome task (λ t. IsAllowed (task_shown t))) }
{
    let Some(sizes) = sizes_in(matches) else {
        return Ok(None);
    };
    let files = files_in(alloc, matches)?;
    if !fits(files.as_slice(), &sizes) {
        return Ok(None);
    }
    let Some(workers) = workers_in(matches, files.len() as u16) else {
        return Ok(None);
    };
    let Some(dump) = dump_in(matches) else {
        return Ok(None);
    };
    Ok(Some(ServeTask {
        files,
        sizes,
        workers,
        dump,
        journal: flag_in(matches, "journal"),
    }))
}

// Whether a flag is there.
fn flag_in(matches: &ArgMatches<'_>, name: &str) -> bool
    ensures { result ≡ flag_in name.now (rows_of (found_of matches.now)) }
{
    match matches.get_str(name) {
        Some(text) => text == "true",
        None => false,
    }
}

pub(crate) fn files_in<'a>(
    alloc: Global,
    matches: &ArgMatches<'a>,
) -> Result<Vec<&'a str>, AllocError>
    ensures { IfOk result (λ files. map (λ file. file.now) files.items ≡ files_in (rows_of (found_of matches.now))) }
{
    match matches.get_strs("file") {
        Some(files) => Vec::from_slice(alloc, files),
        None => Ok(Vec::new(alloc)),
    }
}

/// There are 1 to 16 files, and 128 small buffers for each.
pub(crate) fn fits(files: &[&str], sizes: &SizeOptions) -> bool
    ensures { result ≡ fits_files (map (λ file. file.now) files.now) sizes.now }
{
    match files.len() {
        count @ 1..=16 => 128 * count <= sizes.small as usize,
        _ => false,
    }
}
