ghost use Rattle.std.specs.Prelude.{◌≡◌, ◌∷◌, IfOk, IfSome, map, option_map};
ghost use Rattle.clap.specs.Matches.{found_of};
ghost use Rattle.clap.specs.Walk.{rows_of};
ghost use Rattle.command_line.specs.Frames.{CanServeFrames, frames_for, frames_request_of, shown_frames};
ghost use Rattle.command_line.specs.Task.{files_in, word_texts};

use crate::command::frames_matches;
use crate::join::{LEAST_MTU, MOST_MTU};
use crate::named::begins_with;
use crate::sizes::{SizeOptions, number_between, sizes_in, workers_in};
use crate::task::{files_in, fits};
use clap::ArgMatches;
use flake_base::Memory;
use std::alloc::Global;

/// The files that are to be served with their replies in frames, the sizes to serve them with, and how many workers do
/// it.
#[derive(Debug, Drop)]
pub struct FramesTask<'a> {
    /// The most bytes of a frame.
    pub mtu: u16,
    /// The files' names, in the order of the words.
    pub files: Vec<&'a str>,
    pub sizes: SizeOptions,
    pub workers: u16,
}

/// The task that the words behind the program's name ask for, of which the first is `frames`; none where they are bad
/// words.
pub fn frames_task<'a>(alloc: Global, words: &'a [String]) -> Result<Option<FramesTask<'a>>, Memory>
    ensures value { IfOk result (λ task. option_map shown_frames task
        ≡ frames_request_of (word_texts words.entry.now)) }
    ensures allowed { IfOk result (λ task. IfSome task (λ t. CanServeFrames (shown_frames t))) }
{
    if !begins_with(words, "frames") {
        return Ok(None);
    }
    match frames_matches(alloc, words)? {
        Some(matches) => frames_in(alloc, &matches),
        None => Ok(None),
    }
}

// The first word that is no option is the number, and the others are the files.
fn frames_in<'a>(alloc: Global, matches: &ArgMatches<'a>) -> Result<Option<FramesTask<'a>>, Memory>
    ensures value { IfOk result (λ task. option_map shown_frames task
        ≡ frames_for (rows_of (found_of matches.now)) (files_in (rows_of (found_of matches.now)))) }
    ensures allowed { IfOk result (λ task. IfSome task (λ t. CanServeFrames (shown_frames t))) }
{
    let words = files_in(alloc, matches)?;
    match words.as_slice() {
        [mtu, files @ ..] => frames_with(alloc, matches, *mtu, files),
        [] => Ok(None),
    }
}

// The task, if the number, the sizes and how many files there are fit.
fn frames_with<'a>(
    alloc: Global,
    matches: &ArgMatches<'a>,
    mtu: &'a str,
    files: &[&'a str],
) -> Result<Option<FramesTask<'a>>, Memory>
    ensures value { IfOk result (λ task. option_map shown_frames task
        ≡ frames_for (rows_of (found_of matches.now)) (mtu.entry.now ∷ map (λ file. file.now) files.entry.now)) }
    ensures allowed { IfOk result (λ task. IfSome task (λ t. CanServeFrames (shown_frames t))) }
{
    let Some(sizes) = sizes_in(matches) else {
        return Ok(None);
    };
    let Some(mtu) = number_between(LEAST_MTU, MOST_MTU, mtu) else {
        return Ok(None);
    };
    if !fits(files, &sizes) {
        return Ok(None);
    }
    let Some(workers) = workers_in(matches, files.len() as u16) else {
        return Ok(None);
    };
    Ok(Some(FramesTask {
        mtu: mtu as u16,
        files: Vec::from_slice(alloc, files)?,
        sizes,
        workers,
    }))
}
