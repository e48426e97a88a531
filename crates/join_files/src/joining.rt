// A joiner that takes the frames of a file.
ghost use Rattle.std.specs.Prelude.{◌≡◌, ◌≤◌, [], IfOk, IfErr, OnOk};
ghost use Rattle.mtu_frames.specs.Joining.{IsWhole};
ghost use Rattle.join_files.specs.Cutting.{file_frames};
ghost use Rattle.join_files.specs.Joined.{TookAll, error_of, IsJoinedOf, IsRefusedAt, IsTakenAs, MissesBy};
ghost use Rattle.join_files.specs.Joined.{WhyNotJoined};

use crate::JoinError;
use crate::cutting::split_frame;
use mtu_frames::{BadFrame, Joiner, Missing};
use std::alloc::Global;

// What it is that the frame of this number is refused.
fn error_of(refused: BadFrame, number: u64) -> JoinError
    ensures { result ≡ error_of refused number }
{
    match refused {
        BadFrame::Memory => JoinError::Memory,
        _ => JoinError::BadFrame { number },
    }
}

// Takes the frame of this number.
fn take_one(joiner: &mut Joiner, frame: &[u8], number: u64) -> Result<(), JoinError>
    ensures ok { OnOk result (IsTakenAs joiner.old.mtu joiner.old.calls frame.now joiner.old.frames joiner.new.frames) }
    ensures err { IfErr result (λ e. IsRefusedAt e number joiner.old.mtu joiner.old.calls joiner.old.frames frame.now) }
    ensures same { (joiner.new.mtu ≡ joiner.old.mtu) × (joiner.new.calls ≡ joiner.old.calls) }
{
    match joiner.take(frame) {
        Ok(_taken) => Ok(()),
        Err(refused) => Err(error_of(refused, number)),
    }
}

// Takes each frame of these bytes, until one is refused.
fn take_all(joiner: &mut Joiner, bytes: &[u8]) -> Result<(), JoinError>
    requires { joiner.old.frames ≡ [] }
    ensures ok { OnOk result (TookAll joiner.old.mtu joiner.old.calls (file_frames bytes.now) joiner.new.frames) }
    ensures err { IfErr result (λ e. WhyNotJoined e joiner.old.mtu joiner.old.calls (file_frames bytes.now)) }
    ensures same { (joiner.new.mtu ≡ joiner.old.mtu) × (joiner.new.calls ≡ joiner.old.calls) }
{
    let mut rest = bytes;
    let mut number = 0;
    while !rest.is_empty() {
        let (frame, behind) = split_frame(rest);
        number += 1;
        match take_one(joiner, frame, number) {
            Ok(()) => rest = behind,
            Err(error) => return Err(error),
        }
    }
    Ok(())
}

// The joiner, if it misses no frame.
fn whole(joiner: Joiner) -> Result<Joiner, JoinError>
    ensures ok { IfOk result (λ found. (found ≡ joiner) × IsWhole joiner.frames joiner.calls) }
    ensures err { IfErr result (λ e. MissesBy e joiner.frames joiner.calls) }
{
    match joiner.missing() {
        None => Ok(joiner),
        Some(Missing { call, frame }) => Err(JoinError::Missing { call, frame }),
    }
}

/// A joiner that took all frames of these bytes and misses none; or why there is none.
pub(crate) fn join_bytes(
    alloc: Global,
    bytes: &[u8],
    mtu: u16,
    calls: u32,
) -> Result<Joiner, JoinError>
    requires { (64 ≤ mtu) × (mtu ≤ 9216) }
    ensures ok { IfOk result (λ joiner. IsJoinedOf mtu calls (file_frames bytes.now) joiner) }
    ensures err { IfErr result (λ e. WhyNotJoined e mtu calls (file_frames bytes.now)) }
{
    let mut joiner = Joiner::new(alloc, mtu, calls);
    match take_all(&mut joiner, bytes) {
        Ok(()) => whole(joiner),
        Err(error) => Err(error),
    }
}
