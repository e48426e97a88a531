ghost use Rattle.std.specs.Prelude.{◌≡◌, ◌≤◌, [], IfOk, IfErr, OnOk};
ghost use Rattle.join_files.specs.Source.{IsJoinerOf, IsUnjoined};

use crate::JoinError;
use crate::joining::join_bytes;
use check_files::{Unread, read_whole};
use flake_base::Source;
use mtu_frames::Joiner;
use std::alloc::Global;

/// The most bytes of a file of frames.
const LIMIT: usize = 67_108_864;

/// A joiner that took all frames that a source has, each of at most `mtu` bytes, and misses none of so many calls; or
/// why there is none.
pub fn join_source<S: Source>(
    alloc: Global,
    source: &mut S,
    mtu: u16,
    calls: u32,
) -> Result<Joiner, JoinError>
    requires mtu { (64 ≤ mtu) × (mtu ≤ 9216) }
    requires unread { S.given source.old ≡ [] }
    ensures joined { IfOk result (λ joiner. IsJoinerOf mtu calls (S.given source.new) (S.ended source.new) joiner) }
    ensures calm { OnOk result (S.read_faults source.new ≡ S.read_faults source.old) }
    ensures unjoined { IfErr result (λ e. IsUnjoined e mtu calls (S.given source.new) (S.ended source.new)
        (S.read_faults source.old) (S.read_faults source.new)) }
    ensures name { S.name source.new ≡ S.name source.old }
    ensures whole { S.whole source.new ≡ S.whole source.old }
{
    let bytes = match read_whole(alloc, source, LIMIT) {
        Ok(bytes) => bytes,
        Err(Unread::Fault) => return Err(JoinError::ReadFault),
        Err(Unread::TooLarge) => return Err(JoinError::TooLarge),
        Err(Unread::Memory) => return Err(JoinError::Memory),
    };
    join_bytes(alloc, bytes.as_slice(), mtu, calls)
}
