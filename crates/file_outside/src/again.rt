// Reads and writes that are tried again where they were interrupted.
ghost use Rattle.std.specs.Prelude.{◌≡◌, ◌≤◌, ◌<◌, length, take, IfOk, OnErr};
ghost use Rattle.std.specs.Io.KnownBytes.{Appends, Consumes, IsAtEnd, Keeps};

use flake_base::Failed;
use std::io::{ErrorKind, Read, Write};

/// Reads once into the room.
#[tactic(auto, using(crate::proofs::Known::steps))]
pub fn read_again<F: Read>(reader: &mut F, room: &mut [u8]) -> Result<usize, Failed>
    ensures bound { IfOk result (λ n. n ≤ length room.new) }
    ensures bytes { IfOk result (λ n.
        Consumes (F.remaining reader.old) (F.remaining reader.new) (take n room.new)) }
    ensures end { IfOk result (λ n. n ≡ 0 → 0 < length room.new → IsAtEnd (F.remaining reader.new)) }
    ensures failed { OnErr result (Keeps (F.remaining reader.old) (F.remaining reader.new)) }
{
    'tries: for _ in 0..u64::MAX {
        match reader.read(room) {
            Ok(count) => return Ok(count),
            Err(error) if error.kind() == ErrorKind::Interrupted => {}
            Err(_) => return Err(Failed),
        }
    }
    Err(Failed)
}

/// Writes the bytes, or those before a failure, and answers how many.
pub fn write_front<F: Write>(writer: &mut F, bytes: &[u8]) -> usize
    ensures within { result ≤ length bytes.now }
    ensures text { Appends (F.contents writer.old) (F.contents writer.new) (take result bytes.now) }
{
    let mut count = 0;
    'writes: for _ in 0..u64::MAX {
        let rest = &bytes[count..];
        if rest.is_empty() {
            break;
        }
        match writer.write(rest) {
            Ok(0) => break,
            Ok(more) => count += more,
            Err(error) if error.kind() == ErrorKind::Interrupted => {}
            Err(_) => break,
        }
    }
    count
}
