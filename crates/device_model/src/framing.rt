// A reply as frames, from the buffers to the wire.
ghost use Rattle.std.specs.Prelude.{◌≡◌, ℕ, ◌-◌, ◌^◌, ◌<◌, ◌≤◌, List, ◌++◌, Some, false, length, map, take, drop};
ghost use Rattle.std.specs.Int.{to_le_bytes, w32};
ghost use Rattle.mtu_frames.specs.Frames.{header_bytes, cuts_from, framed, frames_of, mtu_frame_bytes};
ghost use Rattle.tx_ring.specs.Jobs.{frame_of, segments};
ghost use Rattle.any_wire.specs.Sends.{PutsText};
ghost use Rattle.device_model.specs.Devices.{CanFrame};
ghost use Rattle.device_model.specs.Framing.{text_behind, IsInText};
ghost use Rattle.device_model.specs.Pieces.{PutsEach};

use any_wire::{MOST_PUT, WireCalls, put_unless_failed};
use mtu_frames::header;
use pinned_pool::{Pool, PoolName};
use reply_planner::Parcel;
use tx_ring::Job;

// How many bytes a frame's header has.
const HEADER: usize = 16;

// How many bytes a word of a buffer has, and a line of words. Each buffer's address is a multiple of both.
const WORD: usize = 8;

const LINE: usize = 64;

// Where the device stands in a reply's text: at a segment, behind so many of its bytes.
#[derive(Clone, Copy)]
struct TextPlace {
    segment: usize,
    offset: u32,
}

/// Puts the text of all descriptors as frames of at most `mtu` bytes. Answers whether something has failed now, and
/// how many bytes the descriptors have.
// A call by itself, since plain replies cost more where the code for frames lies in between.
#[inline(never)]
pub(crate) fn send_framed<N: PoolName + Send, W: Drop, C: WireCalls<W>>(
    pool: &Pool<N>,
    job: &mut Job<Parcel<N>>,
    room: &mut [u8; MOST_PUT],
    wire: W,
    failed: bool,
    mtu: u16,
    calls: &C,
) -> (W, bool, u64)
    requires calls { C.can_put calls.now }
    requires job { segments job.old ≡ (frame_of job.old).segments }
    requires mtu { CanFrame (Some mtu) }
    ensures job { job.new ≡ job.old }
    ensures sends { PutsText (C.put_may calls.now) failed result.1
        (framed (frame_of job.old).text (frame_of job.old).call mtu) wire result.0 }
    ensures frames { PutsEach (C.put_may calls.now)
        (map mtu_frame_bytes (frames_of (frame_of job.old).text (frame_of job.old).call mtu)) failed result.1 wire
        result.0 }
    ensures bytes { result.2 ≡ length (frame_of job.old).text }
{
    let whole = job.frame();
    whole.is_parcel();
    let call = whole.call();
    let bytes = text_length(job);
    let size = u64::from(mtu) - HEADER as u64;
    let count = count_frames(bytes, size);
    let mut place = TextPlace {
        segment: 0,
        offset: 0,
    };
    let mut wire = wire;
    let mut has_failed = failed;
    let mut index = 0;
    let mut left = bytes;
    while left > 0 {
        if has_failed {
            return (wire, true, bytes);
        }
        let len = left.min(size);
        write_header(room, call, index, count, len);
        let (after, now) = send_cut(pool, job, &mut place, room, len as usize, wire, calls);
        wire = after;
        has_failed = now;
        index += 1;
        left -= len;
    }
    (wire, has_failed, bytes)
}

// How many bytes the descriptors have.
fn text_length<N: PoolName + Send>(job: &mut Job<Parcel<N>>) -> u64
    requires { segments job.old ≡ (frame_of job.old).segments }
    ensures job { job.new ≡ job.old }
    ensures value { result ≡ length (frame_of job.old).text }
{
    let whole = job.frame();
    whole.is_parcel();
    let mut bytes = 0;
    for i in 0..job.count() {
        bytes += u64::from(job.segment(i).len);
    }
    bytes
}

// How many frames a text of so many bytes has, where each has at most `size` of them.
#[tactic(auto, using(crate::proofs::Framed::cuts_counted))]
fn count_frames(bytes: u64, size: u64) -> u64
    requires { 0 < size }
    ensures { (text : List ℕ) → length text ≡ bytes → result ≡ length (cuts_from size bytes text) }
{
    bytes.div_ceil(size)
}

// Writes the header of a frame to the front of the room.
fn write_header(room: &mut [u8; MOST_PUT], call: u32, index: u64, count: u64, len: u64)
    requires { len < 2 ^ 16 }
    ensures { take 16 room.new ≡ header_bytes call index count len }
{
    let head = header(call, low_word(index), low_word(count), len as u16);
    room[..HEADER].copy_from_slice(&head);
}

// The low half of a number.
fn low_word(number: u64) -> u32
    ensures { to_le_bytes w32 result ≡ to_le_bytes w32 number }
{
    (number % (1 << 32)) as u32
}

// Puts the header that the room begins with, and the next bytes of the text, so many.
fn send_cut<N: PoolName + Send, W: Drop, C: WireCalls<W>>(
    pool: &Pool<N>,
    job: &mut Job<Parcel<N>>,
    place: &mut TextPlace,
    room: &mut [u8; MOST_PUT],
    len: usize,
    wire: W,
    calls: &C,
) -> (W, bool)
    requires calls { C.can_put calls.now }
    requires job { segments job.old ≡ (frame_of job.old).segments }
    requires place { IsInText (frame_of job.old).segments place.old.segment place.old.offset }
    requires len { len ≤ length (text_behind N.sizes (frame_of job.old) place.old.segment place.old.offset) }
    ensures job { job.new ≡ job.old }
    ensures place { IsInText (frame_of job.old).segments place.new.segment place.new.offset }
    ensures rest { text_behind N.sizes (frame_of job.old) place.new.segment place.new.offset
        ≡ drop len (text_behind N.sizes (frame_of job.old) place.old.segment place.old.offset) }
    ensures sends { PutsText (C.put_may calls.now) false result.1 (take 16 room.old
        ++ take len (text_behind N.sizes (frame_of job.old) place.old.segment place.old.offset)) wire result.0 }
{
    let first = first_piece_length(job, *place, len);
    let end = HEADER + first;
    let (after, now) = send_run(
        pool,
        job,
        place,
        &mut room[..end],
        HEADER,
        wire,
        false,
        calls,
    );
    let mut wire = after;
    let mut has_failed = now;
    let mut done = first;
    while done < len {
        let count = (len - done).min(MOST_PUT);
        let run = &mut room[..count];
        let (after, now) = send_run(pool, job, place, run, 0, wire, has_failed, calls);
        wire = after;
        has_failed = now;
        done += count;
    }
    (wire, has_failed)
}

// How many of so many bytes of the text go behind the header: all, or as many as there is room for, up to where a line
// of a buffer ends, so that the next pieces are read in whole lines. Where that takes a piece more, a word's end does.
fn first_piece_length<N: PoolName + Send>(
    job: &Job<Parcel<N>>,
    place: TextPlace,
    len: usize,
) -> usize
    ensures { (result ≤ len) × (result ≤ 496) }
{
    let room = MOST_PUT - HEADER;
    if len <= room {
        return len;
    }
    let in_last = (len - room - 1) % MOST_PUT + 1;
    room - count_past(job, place, room, MOST_PUT - in_last)
}

// How many of so many bytes of the text come last and lie in one line of a buffer that goes on behind them, or in one
// word, where `most` are fewer.
fn count_past<N: PoolName + Send>(
    job: &Job<Parcel<N>>,
    place: TextPlace,
    count: usize,
    most: usize,
) -> usize
    ensures { result ≤ count }
{
    let mut left = count;
    let mut offset = place.offset;
    for i in place.segment..job.count() {
        let segment = job.segment(i);
        let there = segment.len.saturating_sub(offset) as usize;
        if left <= there {
            let start = (segment.address % LINE as u64) as usize;
            let end = start + offset as usize + left;
            let past_line = end % LINE;
            let past = if past_line <= most {
                past_line
            } else {
                end % WORD
            };
            return left.min(past);
        }
        left -= there;
        offset = 0;
    }
    0
}

// Reads the next bytes of the text to the room behind its front, and puts the room.
fn send_run<N: PoolName + Send, W: Drop, C: WireCalls<W>>(
    pool: &Pool<N>,
    job: &mut Job<Parcel<N>>,
    place: &mut TextPlace,
    room: &mut [u8],
    front: usize,
    wire: W,
    failed: bool,
    calls: &C,
) -> (W, bool)
    requires calls { C.can_put calls.now }
    requires job { segments job.old ≡ (frame_of job.old).segments }
    requires place { IsInText (frame_of job.old).segments place.old.segment place.old.offset }
    requires count { (0 < length room.old) × (length room.old ≤ 512) }
    requires front { front ≤ length room.old }
    requires len { length room.old - front
        ≤ length (text_behind N.sizes (frame_of job.old) place.old.segment place.old.offset) }
    ensures job { job.new ≡ job.old }
    ensures place { IsInText (frame_of job.old).segments place.new.segment place.new.offset }
    ensures rest { text_behind N.sizes (frame_of job.old) place.new.segment place.new.offset
        ≡ drop (length room.old - front)
        (text_behind N.sizes (frame_of job.old) place.old.segment place.old.offset) }
    ensures sends { PutsText (C.put_may calls.now) failed result.1 (take front room.old
        ++ take (length room.old - front)
        (text_behind N.sizes (frame_of job.old) place.old.segment place.old.offset)) wire result.0 }
{
    load_text(pool, job, place, &mut room[front..]);
    put_unless_failed(wire, failed, calls, room)
}

// Reads the next bytes of the text, as many as the room has, and goes on behind them.
fn load_text<N: PoolName + Send>(
    pool: &Pool<N>,
    job: &mut Job<Parcel<N>>,
    place: &mut TextPlace,
    room: &mut [u8],
)
    requires job { segments job.old ≡ (frame_of job.old).segments }
    requires place { IsInText (frame_of job.old).segments place.old.segment place.old.offset }
    requires len { length room.old
        ≤ length (text_behind N.sizes (frame_of job.old) place.old.segment place.old.offset) }
    ensures job { job.new ≡ job.old }
    ensures place { IsInText (frame_of job.old).segments place.new.segment place.new.offset }
    ensures rest { text_behind N.sizes (frame_of job.old) place.new.segment place.new.offset
        ≡ drop (length room.old) (text_behind N.sizes (frame_of job.old) place.old.segment place.old.offset) }
    ensures bytes { room.new
        ≡ take (length room.old) (text_behind N.sizes (frame_of job.old) place.old.segment place.old.offset) }
{
    let mut done = 0;
    while done < room.len() {
        done += load_part(pool, job, place, &mut room[done..]);
    }
}

// Reads as many of the next bytes as the room has and lie in one segment, under the reply's own holds. Answers how
// many they are, and goes on behind them.
fn load_part<N: PoolName + Send>(
    pool: &Pool<N>,
    job: &mut Job<Parcel<N>>,
    place: &mut TextPlace,
    room: &mut [u8],
) -> usize
    requires job { segments job.old ≡ (frame_of job.old).segments }
    requires place { IsInText (frame_of job.old).segments place.old.segment place.old.offset }
    requires len { (0 < length room.old) × (length room.old
        ≤ length (text_behind N.sizes (frame_of job.old) place.old.segment place.old.offset)) }
    ensures job { job.new ≡ job.old }
    ensures place { IsInText (frame_of job.old).segments place.new.segment place.new.offset }
    ensures rest { text_behind N.sizes (frame_of job.old) place.new.segment place.new.offset
        ≡ drop result (text_behind N.sizes (frame_of job.old) place.old.segment place.old.offset) }
    ensures count { (0 < result) × (result ≤ length room.old) }
    ensures bytes { room.new
        ≡ take result (text_behind N.sizes (frame_of job.old) place.old.segment place.old.offset)
        ++ drop result room.old }
{
    let segment = job.segment(place.segment);
    let parcel = job.frame();
    parcel.is_parcel();
    let Some((buffer, from)) = pool.buffer_at(segment.address) else {
        unreachable!()
    };
    let count = room.len().min((segment.len - place.offset) as usize);
    parcel.load_bytes(pool, buffer, from + place.offset, &mut room[..count]);
    let end = place.offset + count as u32;
    *place = if end < segment.len {
        TextPlace {
            segment: place.segment,
            offset: end,
        }
    } else {
        TextPlace {
            segment: place.segment + 1,
            offset: 0,
        }
    };
    count
}
