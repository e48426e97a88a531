ghost use Rattle.std.specs.Prelude.{◌≡◌, IfOk, IfSome, option_map};
ghost use Rattle.command_line.specs.Task.{IsAllowed, task_shown, task_of, word_texts};

use crate::command::serve_matches;
use crate::named::begins_with;
use crate::task::{ServeTask, task_in};
use flake_base::Memory;
use std::alloc::Global;

/// The task that the words behind the program's name ask for, of which the first is `serve`; none where they are bad
/// words.
pub fn serve_task<'a>(alloc: Global, words: &'a [String]) -> Result<Option<ServeTask<'a>>, Memory>
    ensures value { IfOk result (λ task. option_map task_shown task ≡ task_of (word_texts words.entry.now)) }
    ensures allowed { IfOk result (λ task. IfSome task (λ t. IsAllowed (task_shown t))) }
{
    if !begins_with(words, "serve") {
        return Ok(None);
    }
    match serve_matches(alloc, words)? {
        Some(matches) => task_in(alloc, &matches),
        None => Ok(None),
    }
}
