// The verdict on replies that are given.
ghost use Rattle.std.specs.Prelude.{◌≡◌, ◌≤◌, IfOk, length};
ghost use Rattle.flake_base.specs.Histories.{histories};
ghost use Rattle.replay_check.specs.Inputs.{contents};
ghost use Rattle.replay_check.specs.Differs.{IsVerdict, IsComparison};

use crate::difference::first_difference;
use crate::{AnswerError, answers};
use flake_base::{Inputs, Journal, Memory, Texts};
use std::alloc::Global;

/// What is said of replies.
#[derive(Clone, Copy, Debug, PartialEq, Eq)]
pub enum Verdict {
    /// They are those that the journal gives.
    Same,
    /// The first byte that isn't the one that the journal gives, in the first such session. `None` stands for the end
    /// of a text.
    Differs {
        session: u16,
        place: u64,
        expected: Option<u8>,
        found: Option<u8>,
    },
    /// The first place of the journal that isn't in order.
    BadJournal {
        shard: u16,
        place: u64,
    },
}

// Compares replies with those that are expected.
fn compared(expected: &Texts, replies: &Texts) -> Verdict
    requires as_many { length expected.now.items ≡ length replies.now.items }
    requires few { length replies.now.items ≤ 16 }
    ensures { IsComparison (contents expected.now.items) (contents replies.now.items) result }
{
    for session in 0..replies.len() {
        let text = expected.get(session).as_slice();
        let reply = replies.get(session).as_slice();
        if let Some(place) = first_difference(text, reply) {
            return Verdict::Differs {
                session: session as u16,
                place: place as u64,
                expected: text.get(place).copied(),
                found: reply.get(place).copied(),
            };
        }
    }
    Verdict::Same
}

/// Compares the replies to all commands of each input with those that the journal gives, if it is in order.
pub fn check(
    alloc: Global,
    inputs: &Inputs,
    journal: &Journal,
    replies: &Texts,
) -> Result<Verdict, Memory>
    requires some_shards { 1 ≤ length journal.now.items }
    requires few_shards { length journal.now.items ≤ 16 }
    requires few_sessions { length inputs.now.items ≤ 16 }
    requires as_many { length replies.now.items ≡ length inputs.now.items }
    ensures { IfOk result (IsVerdict (contents inputs.now.items) (histories journal.now.items)
        (contents replies.now.items)) }
{
    match answers(alloc, inputs, journal) {
        Ok(expected) => Ok(compared(&expected, replies)),
        Err(AnswerError::BadJournal { shard, place }) => Ok(Verdict::BadJournal { shard, place }),
        Err(AnswerError::Memory) => Err(Memory),
    }
}
