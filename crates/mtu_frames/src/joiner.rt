ghost use Rattle.std.specs.Prelude.{◌≡◌, ◌<◌, ◌≤◌, [], None, IfSome, not, length, drop};
ghost use Rattle.mtu_frames.specs.Reading.{refusal, frame_read, head_unless, has_length, has_size};
ghost use Rattle.mtu_frames.specs.Joining.{Answers, Misses, HasWhole, IsWhole, reply_at, replies};
ghost use Rattle.mtu_frames.specs.Held.{frames_in};
ghost use Rattle.mtu_frames.specs.Kept.{AreKept};
ghost use Rattle.mtu_frames.specs.Puts.{WasPut};

use crate::error::BadFrame;
use crate::head::{Head, read_head};
use crate::held::{Held, cut_at, hold, is_held, missing_from, missing_now};
use flake_base::{Failed, Memory, Wire};
use std::alloc::Global;
use std::marker::Model;

// The bytes of a header.
const HEADER: usize = 16;

// The most bytes that are put at once.
const MOST_PUT: usize = 512;

/// The least frame that is not there.
#[derive(Clone, Copy, Debug, PartialEq, Eq)]
pub struct Missing {
    pub call: u32,
    pub frame: u32,
}

/// What was done with a frame.
#[derive(Clone, Copy, Debug, PartialEq, Eq)]
pub enum Taken {
    /// It was not there.
    New,
    /// The same frame was taken before.
    Again,
}

/// Puts replies together from their frames, which come in any order and any number of times. It holds what came, and
/// at most about 120 bytes a frame besides, whatever calls and counts the frames name.
#[derive(Drop)]
pub struct Joiner {
    alloc: Global,
    mtu: u16,
    calls: u32,
    held: Held,
    missing: Option<Missing>,
}

impl Model for Joiner {
    ghost use Rattle.std.specs.Prelude.{◌≤◌};
    ghost use Rattle.mtu_frames.specs.Joining.{Joining, Misses};
    ghost use Rattle.mtu_frames.specs.Held.{frames_in};
    ghost use Rattle.mtu_frames.specs.Kept.{AreKept};

    ghost Value = { Joining };

    ghost view = { λ j. record { mtu = j.mtu; calls = j.calls; frames = frames_in j.held.entries } };

    ghost invariant = { λ j. (64 ≤ j.mtu) × AreKept (frames_in j.held.entries)
        × Misses (frames_in j.held.entries) j.calls j.missing };
}

impl Joiner {
    /// A joiner of the frames of so many calls, each of at most `mtu` bytes.
    pub fn new(alloc: Global, mtu: u16, calls: u32) -> Self
        requires { (64 ≤ mtu) × (mtu ≤ 9216) }
        ensures { result ≡ record { mtu = mtu; calls = calls; frames = [] } }
    {
        let held = Held::new(alloc);
        let missing = missing_from(&held, calls, Missing { call: 0, frame: 0 });
        Joiner {
            alloc,
            mtu,
            calls,
            held,
            missing,
        }
    }

    /// Takes a frame. After a refusal the joiner is as before.
    pub fn take(&mut self, frame: &[u8]) -> Result<Taken, BadFrame>
        ensures refused { IfSome (refusal self.old.mtu self.old.calls frame.now)
            (λ e. (result ≡ Err e) × (self.new ≡ self.old)) }
        ensures answer { refusal self.old.mtu self.old.calls frame.now ≡ None
            → Answers (frame_read frame.now) result self.old.frames self.new.frames }
        ensures same { (self.new.mtu ≡ self.old.mtu) × (self.new.calls ≡ self.old.calls) }
    {
        let head = match read(frame, self.mtu, self.calls) {
            Ok(head) => head,
            Err(refused) => return Err(refused),
        };
        let bytes = body(frame);
        let again = match is_held(&self.held, head, bytes) {
            Ok(again) => again,
            Err(conflict) => return Err(conflict),
        };
        if again {
            return Ok(Taken::Again);
        }
        if let Err(Memory) = hold(self.alloc, &mut self.held, head, bytes) {
            return Err(BadFrame::Memory);
        }
        self.missing = missing_now(&self.held, self.calls, self.missing);
        Ok(Taken::New)
    }

    /// The least call, and in it the least frame, that is not there. A call of which no frame was taken misses its
    /// first.
    pub fn missing(&self) -> Option<Missing>
        ensures { Misses self.now.frames self.now.calls result }
    {
        self.missing
    }

    /// Puts the replies in call order, at most 512 bytes at once, until a put fails; answers whether none did.
    pub fn put_all(&self, wire: &mut dyn Wire) -> bool
        requires { IsWhole self.now.frames self.now.calls }
        ensures { WasPut (not result) (replies self.now.frames self.now.calls) (wire_told wire.old)
            (wire_told wire.new) }
    {
        for call in 0..self.calls {
            if !put_reply(&self.held, call, wire) {
                return false;
            }
        }
        true
    }
}

// The bytes behind the header.
fn body(frame: &[u8]) -> &[u8]
    requires { 16 ≤ length frame.now }
    ensures { result.now ≡ drop 16 frame.entry.now }
{
    &frame[HEADER..]
}

// Whether a frame has as many bytes as its header says.
fn has_length(frame: &[u8]) -> bool
    ensures { result ≡ has_length frame.now }
{
    frame.len() >= HEADER && frame.len() == HEADER + usize::from(read_head(frame).len)
}

// Whether a frame has as many bytes of its reply as it is to have.
fn has_size(mtu: u16, head: Head) -> bool
    requires { 64 ≤ mtu }
    ensures { result ≡ has_size mtu head }
{
    let full = mtu - HEADER as u16;
    0 < head.len
        && head.len <= full
        && (head.len == full || u64::from(head.index) + 1 == u64::from(head.count))
}

// The header of a frame, unless a test refuses it that looks at this frame alone.
fn read(frame: &[u8], mtu: u16, calls: u32) -> Result<Head, BadFrame>
    requires { 64 ≤ mtu }
    ensures { result ≡ head_unless (refusal mtu calls frame.now) frame.now }
{
    if !has_length(frame) {
        return Err(BadFrame::BadLength {
            len: frame.len() as u64,
        });
    }
    let head = read_head(frame);
    if frame[14] != 0 {
        return Err(BadFrame::BadField { byte: 14 });
    }
    if frame[15] != 0 {
        return Err(BadFrame::BadField { byte: 15 });
    }
    if head.index >= head.count {
        let Head { index, count, .. } = head;
        return Err(BadFrame::BadIndex { index, count });
    }
    if !has_size(mtu, head) {
        return Err(BadFrame::BadSize { len: head.len });
    }
    if head.call >= calls {
        return Err(BadFrame::BadCall { call: head.call });
    }
    Ok(head)
}

// Puts the reply to a call, until a put fails; answers whether none did.
fn put_reply(held: &Held, call: u32, wire: &mut dyn Wire) -> bool
    requires kept { AreKept (frames_in held.now.entries) }
    requires whole { HasWhole (frames_in held.now.entries) call }
    ensures { WasPut (not result) (reply_at (frames_in held.now.entries) call) (wire_told wire.old)
        (wire_told wire.new) }
{
    let mut index = 0;
    while let Some(cut) = cut_at(held, call, index) {
        if !put_bytes(wire, cut.bytes.as_slice()) {
            return false;
        }
        index += 1;
    }
    true
}

// Puts bytes piece by piece, until a put fails; answers whether none did.
fn put_bytes(wire: &mut dyn Wire, bytes: &[u8]) -> bool
    ensures { WasPut (not result) bytes.now (wire_told wire.old) (wire_told wire.new) }
{
    let mut rest = bytes;
    while !rest.is_empty() {
        let count = rest.len().min(MOST_PUT);
        let (piece, behind) = rest.split_at(count);
        if !put_piece(wire, piece) {
            return false;
        }
        rest = behind;
    }
    true
}

// Puts one piece; answers whether that did not fail.
fn put_piece(wire: &mut dyn Wire, piece: &[u8]) -> bool
    requires { (0 < length piece.now) × (length piece.now ≤ 512) }
    ensures { WasPut (not result) piece.now (wire_told wire.old) (wire_told wire.new) }
{
    match wire.put(piece) {
        Ok(()) => true,
        Err(Failed) => false,
    }
}
