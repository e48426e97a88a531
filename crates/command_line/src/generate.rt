ghost use Rattle.std.specs.Prelude.{◌≡◌, IfOk, IfSome};
ghost use Rattle.command_line.specs.Task.{word_texts};
ghost use Rattle.command_line.specs.GenerateTask.{IsAllowedGenerated, generated_task_of};

use crate::generate_command::matches_of_words;
use crate::generate_task::{GenTask, task_in};
use crate::named::begins_with;
use flake_base::Memory;
use std::alloc::Global;

/// The task that the words behind the program's name ask for, of which the first is `gen`; none where they are bad
/// words.
pub fn gen_task(alloc: Global, words: &[String]) -> Result<Option<GenTask>, Memory>
    ensures value { IfOk result (λ task. task ≡ generated_task_of (word_texts words.now)) }
    ensures allowed { IfOk result (λ task. IfSome task IsAllowedGenerated) }
{
    if !begins_with(words, "gen") {
        return Ok(None);
    }
    match matches_of_words(alloc, words)? {
        Some(matches) => Ok(task_in(&matches)),
        None => Ok(None),
    }
}
