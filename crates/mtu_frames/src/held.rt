// The frames that were taken.
ghost use Rattle.std.specs.Prelude.{◌≡◌, ℕ, ◌^◌, ◌<◌, ◌≤◌, Some, None, OnOk, OnErr, MatchOption, MatchBool};
ghost use Rattle.std.specs.Option.{option_map};
ghost use Rattle.mtu_frames.specs.Frames.{MtuFrame};
ghost use Rattle.mtu_frames.specs.Joining.{frame_at, HasNewFrame, Misses};
ghost use Rattle.mtu_frames.specs.Held.{frames_in, frame_with};
ghost use Rattle.mtu_frames.specs.Kept.{AreKept, AreBefore, AllAgree, OneDiffers, IsMissingBy, Knows};

use crate::error::BadFrame;
use crate::head::Head;
use crate::joiner::Missing;
use flake_base::{Bytes, Memory};
use std::alloc::Global;
use std::collections::BTreeMap;

/// Some bytes of a reply, and how many frames the reply has.
#[derive(Debug, Drop)]
pub(crate) struct Cut {
    pub count: u32,
    pub bytes: Bytes,
}

/// Frames by call and index.
pub(crate) type Held = BTreeMap<(u32, u32), Cut>;

pub(crate) fn cut_at(held: &Held, call: u32, index: u32) -> Option<&Cut>
    ensures { option_map (λ cut. frame_with call index cut.now) result
        ≡ frame_at (frames_in held.now.entries) call index }
{
    held.get(&(call, index))
}

/// How many frames the reply to a call has, if one was taken.
pub(crate) fn count_at(held: &Held, call: u32) -> Option<u32>
    ensures { MatchOption result
        ((index : ℕ) → index < 2 ^ 32 → frame_at (frames_in held.now.entries) call index ≡ None)
        (λ count. (index : ℕ) × (frame : MtuFrame)
        × (frame_at (frames_in held.now.entries) call index ≡ Some frame) × (frame.count ≡ count)) }
{
    match held.range((call, 0)..=(call, u32::MAX)).next() {
        Some((_place, cut)) => Some(cut.count),
        None => None,
    }
}

/// Holds a frame whose place is free. Where that runs out of memory the frames stay as they were.
pub(crate) fn hold(alloc: Global, held: &mut Held, head: Head, bytes: &[u8]) -> Result<(), Memory>
    ensures ok { OnOk result (HasNewFrame (frames_in held.old.entries) (frames_in held.new.entries)
        (record { call = head.call; index = head.index; count = head.count; bytes = bytes.now })) }
    ensures err { OnErr result (held.new.entries ≡ held.old.entries) }
{
    let bytes = Bytes::from_slice(alloc, bytes)?;
    let cut = Cut {
        count: head.count,
        bytes,
    };
    match held.insert((head.call, head.index), cut) {
        Ok(_) => Ok(()),
        Err(_) => Err(Memory),
    }
}

/// What is missing, where no frame before this one is.
pub(crate) fn missing_from(held: &Held, calls: u32, from: Missing) -> Option<Missing>
    requires kept { AreKept (frames_in held.now.entries) }
    requires call { from.call ≤ calls }
    requires before { AreBefore (frames_in held.now.entries) from.call from.frame }
    ensures { Misses (frames_in held.now.entries) calls result }
{
    let Missing {
        mut call,
        mut frame,
    } = from;
    while call < calls {
        match cut_at(held, call, frame) {
            None => return Some(Missing { call, frame }),
            Some(cut) if frame + 1 < cut.count => frame += 1,
            Some(_) => {
                call += 1;
                frame = 0;
            }
        }
    }
    None
}

/// What is missing, where this was before the last frame came.
pub(crate) fn missing_now(held: &Held, calls: u32, missing: Option<Missing>) -> Option<Missing>
    requires kept { AreKept (frames_in held.now.entries) }
    requires before { IsMissingBy (frames_in held.now.entries) calls missing }
    ensures { Misses (frames_in held.now.entries) calls result }
{
    match missing {
        Some(from) => missing_from(held, calls, from),
        None => None,
    }
}

/// Whether the frames of its call have the count that a frame has.
pub(crate) fn agrees(held: &Held, head: Head) -> bool
    requires { AreKept (frames_in held.now.entries) }
    ensures { MatchBool result (AllAgree (frames_in held.now.entries) head.call head.count)
        (OneDiffers (frames_in held.now.entries) head.call head.count) }
{
    match count_at(held, head.call) {
        Some(count) => count == head.count,
        None => true,
    }
}

/// Whether a frame was taken before, unless an earlier one of its call conflicts with it.
pub(crate) fn is_held(held: &Held, head: Head, bytes: &[u8]) -> Result<bool, BadFrame>
    requires { AreKept (frames_in held.now.entries) }
    ensures { Knows (record { call = head.call; index = head.index; count = head.count; bytes = bytes.now })
        (frames_in held.now.entries) result }
{
    let Head { call, index, .. } = head;
    if !agrees(held, head) {
        return Err(BadFrame::Conflict { call, index });
    }
    match cut_at(held, call, index) {
        None => Ok(false),
        Some(cut) => {
            if cut.bytes.as_slice() == bytes {
                Ok(true)
            } else {
                Err(BadFrame::Conflict { call, index })
            }
        }
    }
}
