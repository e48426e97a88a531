// A reply's bytes, from the buffers to the wire.
ghost use Rattle.std.specs.Prelude.{◌≡◌, ◌+◌, ◌<◌, ◌≤◌, List, [], ◌∷◌, length};
ghost use Rattle.tx_ring.specs.Jobs.{frame_of, segments};
ghost use Rattle.reply_planner.specs.Parcels.{HasBytes};
ghost use Rattle.reply_planner.specs.Places.{buffer_bytes, reading};
ghost use Rattle.any_wire.specs.Sends.{WireStep, puts, Chain};
ghost use Rattle.any_wire.specs.Sends.{PutsText};
ghost use Rattle.device_model.specs.Devices.{HasSegment};
ghost use Rattle.device_model.specs.Pieces.{AreCuts, AreCutsAt};

use any_wire::{MOST_PUT, WireCalls};
use flake_base::Seg;
use pinned_pool::{Pool, PoolName};
use reply_planner::Parcel;
use tx_ring::Job;

/// Puts the bytes of all descriptors, one after another. Answers whether something has failed now, and how many bytes
/// the descriptors have.
pub(crate) fn send_frame<N: PoolName + Send, W: Drop, C: WireCalls<W>>(
    pool: &Pool<N>,
    job: &mut Job<Parcel<N>>,
    room: &mut [u8; MOST_PUT],
    wire: W,
    failed: bool,
    calls: &C,
) -> (W, bool, u64)
    requires calls { C.can_put calls.now }
    requires job { segments job.old ≡ (frame_of job.old).segments }
    ensures job { job.new ≡ job.old }
    ensures sends { PutsText (C.put_may calls.now) failed result.1 (frame_of job.old).text wire result.0 }
    ensures bytes { result.2 ≡ length (frame_of job.old).text }
    ensures pieces { (steps : List WireStep)
        × AreCutsAt (reading N.sizes (frame_of job.old).holds) steps (frame_of job.old).segments
        × Chain (C.put_may calls.now) (λ w r. ⊥) steps failed result.1 wire result.0 }
{
    let whole = job.frame();
    whole.is_parcel();
    let mut wire = wire;
    let mut has_failed = failed;
    let mut bytes = 0;
    for i in 0..job.count() {
        let segment = job.segment(i);
        let (after, now) = send_segment(pool, job.frame(), segment, room, wire, has_failed, calls);
        wire = after;
        has_failed = now;
        bytes += u64::from(segment.len);
    }
    (wire, has_failed, bytes)
}

// Puts the bytes of one segment.
fn send_segment<N: PoolName, W: Drop, C: WireCalls<W>>(
    pool: &Pool<N>,
    parcel: &mut Parcel<N>,
    segment: Seg,
    room: &mut [u8; MOST_PUT],
    wire: W,
    failed: bool,
    calls: &C,
) -> (W, bool)
    requires calls { C.can_put calls.now }
    requires segment { HasSegment parcel.old.segments segment }
    ensures parcel { parcel.new ≡ parcel.old }
    ensures sends { PutsText (C.put_may calls.now) failed result.1
        (reading N.sizes parcel.old.holds segment.address segment.len) wire result.0 }
    ensures pieces { (steps : List WireStep)
        × AreCuts steps (reading N.sizes parcel.old.holds segment.address segment.len)
        × Chain (C.put_may calls.now) (λ w r. ⊥) steps failed result.1 wire result.0 }
{
    parcel.is_parcel();
    let Some((buffer, from)) = pool.buffer_at(segment.address) else {
        unreachable!()
    };
    let mut wire = wire;
    let mut has_failed = failed;
    let mut done = 0;
    while done < segment.len {
        let count = (segment.len - done).min(MOST_PUT as u32);
        let (after, now) = send_piece(
            pool,
            parcel,
            buffer,
            from + done,
            &mut room[..count as usize],
            wire,
            has_failed,
            calls,
        );
        wire = after;
        has_failed = now;
        done += count;
    }
    (wire, has_failed)
}

// Reads a piece, as long as the room, under the reply's own holds, and puts it.
fn send_piece<N: PoolName, W: Drop, C: WireCalls<W>>(
    pool: &Pool<N>,
    parcel: &mut Parcel<N>,
    buffer: u32,
    from: u32,
    room: &mut [u8],
    wire: W,
    failed: bool,
    calls: &C,
) -> (W, bool)
    requires calls { C.can_put calls.now }
    requires count { (0 < length room.old) × (length room.old ≤ 512) }
    requires bytes { HasBytes N.sizes parcel.old.segments buffer from (length room.old) }
    ensures parcel { parcel.new ≡ parcel.old }
    ensures sends { PutsText (C.put_may calls.now) failed result.1
        (buffer_bytes parcel.old.holds buffer from (length room.old)) wire result.0 }
    ensures piece { Chain (C.put_may calls.now) (λ w r. ⊥)
        (puts (buffer_bytes parcel.old.holds buffer from (length room.old)) ∷ []) failed result.1 wire result.0 }
{
    parcel.is_parcel();
    if failed {
        return (wire, true);
    }
    parcel.load_bytes(pool, buffer, from, room);
    calls.put(wire, room)
}
