// The sessions of the inputs.
ghost use Rattle.std.specs.Prelude.{◌≡◌, ◌<◌, ◌≤◌, IfOk, length, map};
ghost use Rattle.flake_model.specs.Journal.{session_steps};
ghost use Rattle.replay_check.specs.Inputs.{AreCommands, AreInputs, contents};
ghost use Rattle.replay_check.specs.Places.{step_place, told, ArePlaced};

use crate::commands::commands_of;
use crate::place::{Place, places_of};
use command_parts::Command;
use flake_base::{Bytes, Inputs, Memory};
use std::alloc::Global;

/// A session's commands, and the places of their parts, in order.
#[derive(Drop)]
pub struct Session {
    pub commands: Vec<Command>,
    pub places: Vec<Place>,
}

// The session of this number, by its input.
fn session_of(alloc: Global, number: u16, input: &Bytes, shards: u16) -> Result<Session, Memory>
    requires { 0 < shards }
    ensures commands { IfOk result (λ session. AreCommands input.now.items session.commands.items) }
    ensures places { IfOk result (λ session. session.places.items
        ≡ map (step_place shards) (session_steps number 0 session.commands.items)) }
{
    let commands = commands_of(alloc, input.as_slice())?;
    let places = places_of(alloc, number, commands.as_slice(), shards)?;
    Ok(Session { commands, places })
}

/// The sessions of all inputs, in order.
pub fn sessions_of(alloc: Global, inputs: &Inputs, shards: u16) -> Result<Vec<Session>, Memory>
    requires some { 0 < shards }
    requires few { length inputs.now.items ≤ 16 }
    ensures inputs { IfOk result (λ sessions. AreInputs (contents inputs.now.items) (told sessions.items)) }
    ensures places { IfOk result (λ sessions. ArePlaced shards sessions.items) }
{
    let mut sessions = Vec::with_capacity(alloc, inputs.len())?;
    for number in 0..inputs.len() {
        sessions.push(session_of(alloc, number as u16, inputs.get(number), shards)?)?;
    }
    Ok(sessions)
}
