ghost use Rattle.std.specs.Prelude.{◌≡◌, ◌≤◌, ◌%◌, IfOk, IfSome, IsTrue, length, map, option_map};
ghost use Rattle.command_line.specs.Check.{are_pairs, check_of, file_at, files_from, shown_check};
ghost use Rattle.command_line.specs.Task.{word_texts};

use crate::command::check_matches;
use crate::named::begins_with;
use crate::task::files_in;
use flake_base::Memory;
use std::alloc::{AllocError, Global};

/// The files that are to be checked.
#[derive(Debug, Drop)]
pub struct CheckTask<'a> {
    /// The journal's name, and then each session's input's and its replies'; `None` where it has no replies' file.
    pub files: Vec<Option<&'a str>>,
}

/// The task that the words behind the program's name ask for, of which the first is `check`; none where they are bad
/// words.
pub fn check_task<'a>(alloc: Global, words: &'a [String]) -> Result<Option<CheckTask<'a>>, Memory>
    ensures value { IfOk result (λ task. option_map shown_check task ≡ check_of (word_texts words.entry.now)) }
    ensures some { IfOk result (λ task. IfSome task (λ t. 3 ≤ length t.files.items)) }
    ensures few { IfOk result (λ task. IfSome task (λ t. length t.files.items ≤ 33)) }
    ensures pairs { IfOk result (λ task. IfSome task (λ t. length t.files.items % 2 ≡ 1)) }
{
    if !begins_with(words, "check") {
        return Ok(None);
    }
    let Some(matches) = check_matches(alloc, words)? else {
        return Ok(None);
    };
    let words = files_in(alloc, &matches)?;
    if !are_pairs(words.len()) {
        return Ok(None);
    }
    let files = files_of(alloc, words.as_slice())?;
    Ok(Some(CheckTask { files }))
}

// There is a journal, and 1 to 16 pairs.
fn are_pairs(count: usize) -> bool
    ensures value { result ≡ are_pairs count }
    ensures within { IsTrue result → (3 ≤ count) × (count ≤ 33) × (count % 2 ≡ 1) }
{
    3 <= count && count <= 33 && count % 2 == 1
}

// The files at their places.
fn files_of<'a>(alloc: Global, words: &[&'a str]) -> Result<Vec<Option<&'a str>>, AllocError>
    ensures value { IfOk result (λ files. map (λ file. option_map (λ name. name.now) file) files.items
        ≡ files_from 0 (map (λ word. word.now) words.entry.now)) }
    ensures len { IfOk result (λ files. length files.items ≡ length words.now) }
{
    let mut files = Vec::new(alloc);
    for (place, word) in words.iter().enumerate() {
        files.push(file_at(place, *word))?;
    }
    Ok(files)
}

fn file_at<'a>(place: usize, word: &'a str) -> Option<&'a str>
    ensures { option_map (λ name. name.now) result ≡ file_at place word.entry.now }
{
    if 2 <= place && place % 2 == 0 && word == "none" {
        None
    } else {
        Some(word)
    }
}
