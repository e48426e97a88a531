ghost use Rattle.std.specs.Prelude.{◌≡◌, IfOk, IfSome, map, option_map};
ghost use Rattle.command_line.specs.Join.{AreJoinNumbers, join_for, join_of, shown_join};
ghost use Rattle.command_line.specs.Task.{word_texts};

use crate::command::join_matches;
use crate::named::begins_with;
use crate::sizes::number_between;
use crate::task::files_in;
use flake_base::Memory;
use std::alloc::Global;

/// The least and the most bytes of a frame.
pub(crate) const LEAST_MTU: u32 = 64;

pub(crate) const MOST_MTU: u32 = 9216;

/// The file whose frames are to be put together.
#[derive(Clone, Copy, Debug)]
pub struct JoinTask<'a> {
    /// The most bytes of a frame.
    pub mtu: u16,
    /// How many calls the frames are of.
    pub calls: u32,
    pub file: &'a str,
}

/// The task that the words behind the program's name ask for, of which the first is `join`; none where they are bad
/// words.
pub fn join_task<'a>(alloc: Global, words: &'a [String]) -> Result<Option<JoinTask<'a>>, Memory>
    ensures value { IfOk result (λ task. option_map shown_join task ≡ join_of (word_texts words.entry.now)) }
    ensures allowed { IfOk result (λ task. IfSome task (λ t. AreJoinNumbers t.mtu t.calls)) }
{
    if !begins_with(words, "join") {
        return Ok(None);
    }
    let Some(matches) = join_matches(alloc, words)? else {
        return Ok(None);
    };
    let words = files_in(alloc, &matches)?;
    Ok(join_for(words.as_slice()))
}

// There are two numbers and a file.
fn join_for<'a>(words: &[&'a str]) -> Option<JoinTask<'a>>
    ensures value { option_map shown_join result ≡ join_for (map (λ word. word.now) words.entry.now) }
    ensures allowed { IfSome result (λ t. AreJoinNumbers t.mtu t.calls) }
{
    match words {
        [mtu, calls, file] => {
            let mtu = number_between(LEAST_MTU, MOST_MTU, *mtu)?;
            let calls = number_between(0, u32::MAX, *calls)?;
            Some(JoinTask {
                mtu: mtu as u16,
                calls,
                file: *file,
            })
        }
        _ => None,
    }
}
