ghost use Rattle.std.specs.Prelude.{◌≤◌, IfOk, IfErr, length};
ghost use Rattle.flake_base.specs.Histories.{histories};
ghost use Rattle.replay_check.specs.Inputs.{contents};
ghost use Rattle.replay_check.specs.Answered.{AreAnswers, IsRefusal};

use crate::AnswerError;
use crate::replay::replay;
use crate::replies::texts_of;
use crate::session::sessions_of;
use crate::slots::all_slots;
use flake_base::{Inputs, Journal, Texts};
use std::alloc::Global;

/// The texts of the replies to all commands of each input, as the journal's histories give them from empty stores.
pub fn answers(alloc: Global, inputs: &Inputs, journal: &Journal) -> Result<Texts, AnswerError>
    requires some_shards { 1 ≤ length journal.now.items }
    requires few_shards { length journal.now.items ≤ 16 }
    requires few_sessions { length inputs.now.items ≤ 16 }
    ensures ok { IfOk result (λ texts.
        AreAnswers (contents inputs.now.items) (histories journal.now.items) (contents texts.items)) }
    ensures err { IfErr result (IsRefusal (contents inputs.now.items) (histories journal.now.items)) }
{
    let shards = journal.len() as u16;
    let sessions = sessions_of(alloc, inputs, shards)?;
    let sessions = sessions.as_slice();
    let mut slots = all_slots(alloc, sessions, shards)?;
    replay(alloc, sessions, journal, &mut slots)?;
    let texts = texts_of(alloc, sessions, slots.as_slice())?;
    Ok(texts)
}
