// A shard's history, from an empty store on.
ghost use Rattle.std.specs.Prelude.{◌≡◌, ◌≤◌, ◌++◌, [], List, ℕ, IfOk, OnOk, OnErr, IfErr, length};
ghost use Rattle.std.specs.List.{flat_map};
ghost use Rattle.std.specs.FinMap as finite;
ghost use Rattle.flake_base.specs.declared.journal.Entry.{Entry as ModelEntry};
ghost use Rattle.flake_model.specs.Store.{Store as Meaning, Operation, Answer, answer, after};
ghost use Rattle.flake_model.specs.Journal.{step_of, answers_from, answers_of};
ghost use Rattle.byte_store.specs.Store.{HoldsStore, answer_meant};
ghost use Rattle.flake_base.specs.Histories.{histories};
ghost use Rattle.replay_check.specs.InOrder.{AreInOrder};
ghost use Rattle.replay_check.specs.Places.{told, ArePlaced};
ghost use Rattle.replay_check.specs.Noted.{AreNoted, HasPart};
ghost use Rattle.replay_check.specs.Faults.{IsFaultIn, IsFaultOf, AllInOrder};

use crate::AnswerError;
use crate::order::{ends_in_order, starts, take_part};
use crate::session::Session;
use crate::slots::{Slots, note};
use byte_store::{ByteAnswer, ByteStore};
use flake_base::{Entry, Journal, Memory};
use std::alloc::Global;

// Does the part of an entry, and gives its answer. After want of memory the store is as it was.
fn do_part(
    alloc: Global,
    session: &Session,
    store: &mut ByteStore,
    entry: Entry,
) -> Result<ByteAnswer, Memory>
    requires { (operation : Operation) × HasPart session.now.commands.items entry operation }
    ensures answer { (meaning : Meaning) (operation : Operation) → HoldsStore store.old meaning
        → HasPart session.now.commands.items entry operation
        → IfOk result (λ a. answer_meant a ≡ answer meaning operation) }
    ensures after { (meaning : Meaning) (operation : Operation) → HoldsStore store.old meaning
        → HasPart session.now.commands.items entry operation
        → OnOk result (HoldsStore store.new (after meaning operation)) }
{
    let command = &session.commands[entry.call as usize];
    let part = command.part(entry.part as usize);
    let answer = store.run(alloc, &part)?;
    Ok(answer)
}

// Notes the answers that a shard's history gives, if it is in order.
fn replay_shard(
    alloc: Global,
    sessions: &[Session],
    shard: u16,
    history: &[Entry],
    slots: &mut Vec<Slots>,
) -> Result<(), AnswerError>
    requires placed { (shards : ℕ) × ArePlaced shards sessions.now }
    requires noted { (before : List (ModelEntry × Answer)) × AreNoted (told sessions.now) before slots.old.items }
    ensures noted { (before : List (ModelEntry × Answer)) → AreNoted (told sessions.now) before slots.old.items
        → OnOk result (AreNoted (told sessions.now)
        (before ++ answers_from finite.empty (flat_map (step_of (told sessions.now)) history.now)) slots.new.items) }
    ensures in_order { (shards : ℕ) → ArePlaced shards sessions.now
        → OnOk result (AreInOrder (told sessions.now) shards shard history.now) }
    ensures fault { (shards : ℕ) → ArePlaced shards sessions.now
        → IfErr result (IsFaultIn (told sessions.now) shards shard history.now) }
{
    let mut store = ByteStore::new(alloc);
    let mut cursors = starts(alloc, sessions)?;
    for (place, entry) in history.iter().enumerate() {
        let Some(part) = take_part(sessions, &mut cursors, shard, *entry) else {
            let place = place as u64;
            return Err(AnswerError::BadJournal { shard, place });
        };
        let number = entry.session as usize;
        let answer = do_part(alloc, &sessions[number], &mut store, *entry)?;
        note(&mut slots[number], part, answer);
    }
    if !ends_in_order(sessions, cursors.as_slice(), shard) {
        let place = history.len() as u64;
        return Err(AnswerError::BadJournal { shard, place });
    }
    Ok(())
}

/// Notes the answers that a journal gives, if it is in order.
pub fn replay(
    alloc: Global,
    sessions: &[Session],
    journal: &Journal,
    slots: &mut Vec<Slots>,
) -> Result<(), AnswerError>
    requires placed { ArePlaced (length journal.now.items) sessions.now }
    requires few { length journal.now.items ≤ 16 }
    requires noted { AreNoted (told sessions.now) [] slots.old.items }
    ensures noted { OnOk result (AreNoted (told sessions.now)
        (answers_of (told sessions.now) (histories journal.now.items)) slots.new.items) }
    ensures in_order { OnOk result (AllInOrder (told sessions.now) (histories journal.now.items)) }
    ensures fault { IfErr result (IsFaultOf (told sessions.now) (histories journal.now.items)) }
{
    for shard in 0..journal.len() {
        let history = journal.get(shard).as_slice();
        replay_shard(alloc, sessions, shard as u16, history, slots)?;
    }
    Ok(())
}
