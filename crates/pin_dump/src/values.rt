// Values that are put in pieces.
ghost use Rattle.std.specs.Prelude.{◌≡◌, ◌*◌, ◌+◌, ◌<◌, ◌≤◌, length, take, drop};
ghost use Rattle.view_sums.specs.Total.{total};
ghost use Rattle.pin_core.specs.Holding.{at};
ghost use Rattle.pinned_pool.specs.Bytes.{bytes_of_words};
ghost use Rattle.pinned_pool.specs.Moves.{front_of};
ghost use Rattle.frag_value.specs.Values.{frag_bytes, value_bytes};
ghost use Rattle.any_wire.specs.Sends.{PutsText};
ghost use Rattle.frag_value.specs.Pins.{IsPinned};

use any_wire::{MOST_PUT, WireCalls, put_unless_failed};
use frag_value::Pinned;
use pinned_pool::{Pool, PoolName, PoolSeat};

/// Puts the value's bytes in pieces of at most 512, each read under the seat's own hold, until a put fails.
pub(crate) fn put_value<N: PoolName, W: Drop, C: WireCalls<W>>(
    pool: &Pool<N>,
    seat: &mut PoolSeat<N>,
    value: &Pinned<N>,
    room: &mut [u8; MOST_PUT],
    wire: W,
    failed: bool,
    calls: &C,
) -> (W, bool)
    requires calls { C.can_put calls.now }
    requires value { IsPinned seat.old.holds value.now }
    ensures seat { seat.new ≡ seat.old }
    ensures puts { PutsText (C.put_may calls.now) failed result.1 (value_bytes seat.old.holds value.now) wire
        result.0 }
{
    let mut wire = wire;
    let mut has_failed = failed;
    for i in 0..value.count() {
        let frag = value.frag(i);
        let buffer = frag.hold.buffer();
        let (after, now) = put_frag(pool, seat, buffer, frag.len, room, wire, has_failed, calls);
        wire = after;
        has_failed = now;
    }
    (wire, has_failed)
}

// Puts the bytes of one fragment.
fn put_frag<N: PoolName, W: Drop, C: WireCalls<W>>(
    pool: &Pool<N>,
    seat: &mut PoolSeat<N>,
    buffer: u32,
    len: u32,
    room: &mut [u8; MOST_PUT],
    wire: W,
    failed: bool,
    calls: &C,
) -> (W, bool)
    requires calls { C.can_put calls.now }
    requires held { 0 < total (at buffer) seat.old.holds }
    requires filled { len ≤ 8 * length (front_of buffer seat.old.holds) }
    ensures seat { seat.new ≡ seat.old }
    ensures puts { PutsText (C.put_may calls.now) failed result.1 (frag_bytes seat.old.holds (buffer, len))
        wire result.0 }
{
    let mut wire = wire;
    let mut has_failed = failed;
    let mut done = 0;
    while done < len {
        let count = (len - done).min(MOST_PUT as u32);
        let (after, now) = put_piece(
            pool,
            seat,
            buffer,
            done,
            &mut room[..count as usize],
            wire,
            has_failed,
            calls,
        );
        wire = after;
        has_failed = now;
        done += count;
    }
    (wire, has_failed)
}

// Reads a piece, as long as the room, and puts it.
fn put_piece<N: PoolName, W: Drop, C: WireCalls<W>>(
    pool: &Pool<N>,
    seat: &mut PoolSeat<N>,
    buffer: u32,
    from: u32,
    room: &mut [u8],
    wire: W,
    failed: bool,
    calls: &C,
) -> (W, bool)
    requires calls { C.can_put calls.now }
    requires count { (0 < length room.old) × (length room.old ≤ 512) }
    requires held { 0 < total (at buffer) seat.old.holds }
    requires inside { from + length room.old ≤ 8 * length (front_of buffer seat.old.holds) }
    ensures seat { seat.new ≡ seat.old }
    ensures puts { PutsText (C.put_may calls.now) failed result.1
        (take (length room.old) (drop from (bytes_of_words (front_of buffer seat.old.holds)))) wire result.0 }
{
    if failed {
        return (wire, true);
    }
    pool.load_bytes(seat, buffer, from, room);
    put_unless_failed(wire, false, calls, room)
}
