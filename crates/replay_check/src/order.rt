// Where each session stands in a shard's history.
ghost use Rattle.std.specs.Prelude.{◌≡◌, ◌<◌, ◌↔◌, [], ℕ, List, length, map, drop, vec_len};
ghost use Rattle.std.specs.Prelude.{IsTrue, IfOk, IfSome, IsNone};
ghost use Rattle.flake_base.specs.declared.journal.Entry.{Entry};
ghost use Rattle.flake_model.specs.Journal.{Step, in_shard};
ghost use Rattle.replay_check.specs.InOrder.{AreWrites, IsNext, left_behind};
ghost use Rattle.replay_check.specs.Places.{step_place, all_due_from, IsFound, told, ArePlaced, AreAt};
ghost use Rattle.replay_check.specs.Taken.{IsEntryTaken};

use crate::place::Place;
use crate::session::Session;
use flake_base::{Entry, Memory};
use std::alloc::Global;

// The place of an entry's part, which is next of the shard's parts from a place on: the others before it are writes.
fn next_part(places: &[Place], at: usize, shard: u16, entry: Entry) -> Option<usize>
    ensures found { (shards : ℕ) (steps : List Step) → places.now ≡ map (step_place shards) steps
        → IfSome result (λ found. IsFound shards shard steps at found entry) }
    ensures below { IfSome result (λ found. found < length places.now) }
    ensures none { (shards : ℕ) (steps : List Step) → places.now ≡ map (step_place shards) steps
        → IsNone result → IsNext (in_shard shards shard (drop at steps)) entry → ⊥ }
{
    for found in at..places.len() {
        let place = places[found];
        if place.shard == shard {
            if place.entry == entry {
                return Some(found);
            }
            if !place.is_write {
                return None;
            }
        }
    }
    None
}

/// Each session before its first part.
pub fn starts(alloc: Global, sessions: &[Session]) -> Result<Vec<usize>, Memory>
    ensures { (shards shard : ℕ) → IfOk result (λ cursors. AreAt (told sessions.now) shards shard [] cursors.items) }
{
    Ok(vec![in alloc; 0; sessions.len()]?)
}

/// The place of an entry's part in its session, which moves behind it; none where the entry isn't in order.
pub fn take_part(
    sessions: &[Session],
    cursors: &mut Vec<usize>,
    shard: u16,
    entry: Entry,
) -> Option<usize>
    requires { vec_len cursors.old ≡ length sessions.now }
    ensures taken { (shards : ℕ) (earlier : List Entry) → ArePlaced shards sessions.now
        → AreAt (told sessions.now) shards shard earlier cursors.old.items
        → IfSome result (λ place. IsEntryTaken (told sessions.now) shards shard earlier cursors.new.items entry place) }
    ensures within { IfSome result (λ place. entry.session < length sessions.now) }
    ensures none { (shards : ℕ) (earlier : List Entry) → ArePlaced shards sessions.now
        → AreAt (told sessions.now) shards shard earlier cursors.old.items
        → IsNone result → IsNext (left_behind (told sessions.now) shards shard earlier entry.session) entry → ⊥ }
    ensures count { vec_len cursors.new ≡ vec_len cursors.old }
{
    let number = entry.session as usize;
    if number >= sessions.len() {
        return None;
    }
    let place = next_part(
        sessions[number].places.as_slice(),
        cursors[number],
        shard,
        entry,
    )?;
    cursors[number] = place + 1;
    Some(place)
}

// Whether each of the shard's parts from a place on is a write.
fn all_due(places: &[Place], at: usize, shard: u16) -> bool
    ensures { result ≡ all_due_from at shard places.now }
{
    places
        .iter()
        .skip(at)
        .all(|place| place.shard != shard || place.is_write)
}

/// Whether a history may end here: each part that a session has left is a write.
pub fn ends_in_order(sessions: &[Session], cursors: &[usize], shard: u16) -> bool
    requires { length cursors.now ≡ length sessions.now }
    ensures { (shards : ℕ) (earlier : List Entry) → ArePlaced shards sessions.now
        → AreAt (told sessions.now) shards shard earlier cursors.now
        → IsTrue result ↔ ((session : ℕ) → AreWrites (left_behind (told sessions.now) shards shard earlier session)) }
{
    for number in 0..sessions.len() {
        if !all_due(sessions[number].places.as_slice(), cursors[number], shard) {
            return false;
        }
    }
    true
}
