// The answers to the parts of each session, as they come.
ghost use Rattle.std.specs.Prelude.{◌≡◌, ◌<◌, IfOk, [], replicate, None, vec_len};
ghost use Rattle.byte_store.specs.Store.{answer_meant};
ghost use Rattle.replay_check.specs.Noted.{slots_meant, noted, AreNoted};
ghost use Rattle.replay_check.specs.Places.{told, ArePlaced};

use crate::session::Session;
use byte_store::ByteAnswer;
use flake_base::Memory;
use std::alloc::Global;

/// The answers to a session's parts, in order; a part without an entry has none.
pub type Slots = Vec<Option<ByteAnswer>>;

// So many parts without an answer.
fn no_answers(alloc: Global, count: usize) -> Result<Slots, Memory>
    ensures { IfOk result (λ slots. slots_meant slots.items ≡ replicate count None) }
{
    let mut slots = Vec::with_capacity(alloc, count)?;
    for _part in 0..count {
        slots.push(None)?;
    }
    Ok(slots)
}

/// The parts of all sessions, without an answer.
pub fn all_slots(alloc: Global, sessions: &[Session], shards: u16) -> Result<Vec<Slots>, Memory>
    requires { ArePlaced shards sessions.now }
    ensures { IfOk result (λ slots. AreNoted (told sessions.now) [] slots.items) }
{
    let mut slots = Vec::with_capacity(alloc, sessions.len())?;
    for session in sessions {
        slots.push(no_answers(alloc, session.places.len())?)?;
    }
    Ok(slots)
}

/// Notes the answer to a part, where it has none.
pub fn note(slots: &mut Slots, place: usize, answer: ByteAnswer)
    requires { place < vec_len slots.old }
    ensures { slots_meant slots.new.items ≡ noted place (answer_meant answer) (slots_meant slots.old.items) }
{
    if slots[place].is_none() {
        slots[place] = Some(answer);
    }
}
