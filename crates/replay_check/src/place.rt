// The places of a session's parts.
ghost use Rattle.std.specs.Prelude.{◌≡◌, ◌<◌, ◌≤◌, ◌^◌, ◌++◌, List, ℕ, IfOk, OnOk, length, map};
ghost use Rattle.flake_model.specs.Command.{parts};
ghost use Rattle.flake_model.specs.Journal.{shard_of as shard_by, call_steps, session_steps};
ghost use Rattle.shard_part.specs.Parts.{operation_by, operation_of};
ghost use Rattle.replay_check.specs.Writes.{writes};
ghost use Rattle.replay_check.specs.Places.{step_place as place_by};

use command_parts::Command;
use flake_base::{Entry, Memory};
use shard_part::{Part, PartOp, shard_of};
use std::alloc::Global;

/// What the order of a history needs of a part.
#[derive(Clone, Copy, Debug, PartialEq, Eq)]
pub struct Place {
    pub entry: Entry,
    pub shard: u16,
    /// Whether the part may have no entry.
    pub is_write: bool,
}

fn is_write(op: PartOp) -> bool
    ensures { (key value : List ℕ) → result ≡ writes (operation_by op key value) }
{
    match op {
        PartOp::Set
        | PartOp::SetNx
        | PartOp::SetXx
        | PartOp::SetGet
        | PartOp::SetNxGet
        | PartOp::SetXxGet
        | PartOp::Append => true,
        _ => false,
    }
}

fn place_of(entry: Entry, part: &Part<'_>, shards: u16) -> Place
    requires { 0 < shards }
    ensures { result ≡ place_by shards (entry, operation_of part.now) }
{
    Place {
        entry,
        shard: shard_of(part.key, shards),
        is_write: is_write(part.op),
    }
}

// Puts the places of a call's parts behind those before them.
fn put_places(
    places: &mut Vec<Place>,
    session: u16,
    call: u32,
    command: &Command,
    shards: u16,
) -> Result<(), Memory>
    requires { 0 < shards }
    ensures { OnOk result (places.new.items
        ≡ places.old.items ++ map (place_by shards) (call_steps session call 0 (parts command.now))) }
{
    for j in 0..command.count() {
        let entry = Entry {
            session,
            call,
            part: j as u16,
        };
        let part = command.part(j);
        places.push(place_of(entry, &part, shards))?;
    }
    Ok(())
}

/// The places of all parts of a session, in order.
pub fn places_of(
    alloc: Global,
    session: u16,
    commands: &[Command],
    shards: u16,
) -> Result<Vec<Place>, Memory>
    requires some { 0 < shards }
    requires few { length commands.now ≤ 2 ^ 32 }
    ensures { IfOk result (λ places. places.items ≡ map (place_by shards) (session_steps session 0 commands.now)) }
{
    let mut places = Vec::new(alloc);
    for (call, command) in commands.iter().enumerate() {
        put_places(&mut places, session, call as u32, command, shards)?;
    }
    Ok(places)
}
