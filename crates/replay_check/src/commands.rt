// The commands of an input, by the grammar of the whole.
ghost use Rattle.std.specs.Prelude.{◌≡◌, ◌≢◌, IfOk, map};
ghost use Rattle.flake_model.specs.Command.{command_of};
ghost use Rattle.replay_check.specs.Inputs.{AreCommands};
ghost use Rattle.replay_check.specs.Refused.{error_kind_of};

use command_parts::Command;
use flake_base::{ErrorKind, Memory};
use resp_reader::{ReadError, Reader};
use std::alloc::Global;

pub fn commands_of(alloc: Global, input: &[u8]) -> Result<Vec<Command>, Memory>
    ensures { IfOk result (λ commands. AreCommands input.now commands.items) }
{
    let mut reader = Reader::new(alloc);
    let refused = match reader.feed(input) {
        Ok(()) => None,
        Err(error) => refusal(error)?,
    };
    let mut commands = requested(alloc, reader)?;
    if let Some(kind) = refused {
        commands.push(Command::protocol(kind))?;
    }
    Ok(commands)
}

// The commands of the requests that a reader holds.
fn requested(alloc: Global, reader: Reader) -> Result<Vec<Command>, Memory>
    ensures { IfOk result (λ commands. commands.items ≡ map command_of reader.requests) }
{
    let mut reader = reader;
    let mut commands = Vec::new(alloc);
    while let Some(request) = reader.next() {
        commands.push(Command::of(request))?;
    }
    Ok(commands)
}

// What an error of the reader is answered by, unless memory was wanting; nothing, where the input is too long.
fn refusal(error: ReadError) -> Result<Option<ErrorKind>, Memory>
    ensures kind { IfOk result (λ kind. kind ≡ error_kind_of error) }
    ensures other { IfOk result (λ kind. error ≢ ReadError.Memory) }
{
    match error {
        ReadError::BadCount { .. } => Ok(Some(ErrorKind::ProtocolCount)),
        ReadError::ExpectedBulk { .. } => Ok(Some(ErrorKind::ProtocolBulk)),
        ReadError::BadLength { .. } => Ok(Some(ErrorKind::ProtocolLength)),
        ReadError::Inline { .. } => Ok(Some(ErrorKind::ProtocolInline)),
        ReadError::TooLong { .. } => Ok(None),
        ReadError::Memory => Err(Memory),
    }
}
