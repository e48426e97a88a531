// A source that is read whole.
ghost use Rattle.std.specs.Prelude.{◌≡◌, IfOk, IfErr, OnOk};
ghost use Rattle.check_files.specs.Whole.{GaveMore, IsReadWhole, IsUnread};

use crate::Unread;
use flake_base::{Bytes, Source};
use std::alloc::Global;

/// The most bytes of one read.
const PIECE: usize = 4096;

/// All bytes that a source still gives, if they are no more than so many.
pub fn read_whole<S: Source>(alloc: Global, source: &mut S, limit: usize) -> Result<Bytes, Unread>
    ensures ok { IfOk result (λ bytes. IsReadWhole limit (S.given source.old) (S.given source.new)
        (S.ended source.new) bytes.items) }
    ensures more { GaveMore (S.given source.old) (S.given source.new) }
    ensures faults { OnOk result (S.read_faults source.new ≡ S.read_faults source.old) }
    ensures err { IfErr result (λ unread. IsUnread unread limit (S.given source.old) (S.given source.new)
        (S.read_faults source.old) (S.read_faults source.new)) }
    ensures name { S.name source.new ≡ S.name source.old }
    ensures whole { S.whole source.new ≡ S.whole source.old }
{
    let mut bytes = Bytes::new(alloc);
    let mut room = [0; PIECE];
    while bytes.len() <= limit {
        let Ok(count) = source.read(&mut room) else {
            return Err(Unread::Fault);
        };
        if count == 0 {
            return Ok(bytes);
        }
        bytes.append(&room[..count])?;
    }
    Err(Unread::TooLarge)
}
