// A post, step by step: the descriptors, the slot of the last one, and the tail.
ghost use Rattle.std.specs.Prelude.{◌≡◌, ◌+◌, ◌%◌, ◌<◌, ◌≤◌, false, [], ◌∷◌, length, take};
ghost use Rattle.tx_ring.specs.Ends.{HasRingSizes, IsDrafting, with_draft};
ghost use Rattle.tx_ring.specs.Moves.{drafting, posting};
ghost use Rattle.tx_ring.specs.Plays.{with_driver};
ghost use Rattle.tx_ring.specs.Words.{length_word, pairs, IsFrame, size, extent};

use crate::atomic::{exchange, move_tail, write_address, write_command, write_last};
use crate::rule::{RingSeat, RingTable};
use crate::status::status_word;
use flake_base::Seg;
use tx_descriptor::Framed;

// The descriptor of a segment that is not a frame's last one.
pub(crate) fn write_segment<P: Framed>(
    ring: &RingTable<P>,
    seat: &mut RingSeat<P>,
    place: usize,
    seg: Seg,
)
    requires table { (seat.old.table_id ≡ ring.now.shared.table_id)
        × HasRingSizes ring.now.shared.key ring.now.shared.table_id }
    requires ready { IsDrafting P.segs ring.now.shared.key seat.old.me.0 place }
    requires seg { seg.len ≤ 4096 }
    ensures seat { (seat.new.table_id ≡ seat.old.table_id) × (seat.new.id ≡ seat.old.id) }
    ensures view { seat.new.me ≡ (
      with_driver
          (drafting (length_word seg.len false false) (drafting seg.address seat.old.me.0.driver)) seat.old.me.0,
      seat.old.me.1,
    ) }
{
    write_address(ring, seat, place, seg.address);
    let word = status_word(seg.len, false, false);
    write_command(ring, seat, place, word);
}

pub(crate) fn next_place(place: usize, count: usize) -> usize
    requires { (place < count) × (count ≤ 4096) }
    ensures value { result ≡ (place + 1) % count }
    ensures below { result < count }
{
    if place + 1 < count { place + 1 } else { 0 }
}

// All descriptors of a frame but the last one. Gives the place of that one.
pub(crate) fn write_front<P: Framed>(
    ring: &RingTable<P>,
    seat: &mut RingSeat<P>,
    start: usize,
    count: usize,
    frame: &P,
    last: usize,
) -> usize
    requires table { (seat.old.table_id ≡ ring.now.shared.table_id)
        × (count ≡ ring.now.shared.key)
        × HasRingSizes ring.now.shared.key ring.now.shared.table_id }
    requires ready { IsDrafting P.segs ring.now.shared.key seat.old.me.0 start × (seat.old.me.0.driver.draft ≡ []) }
    requires room { extent P.segs seat.old.me.0.driver.posted + size P.segs frame.now + 1
        ≤ extent P.segs seat.old.me.0.driver.reaped + ring.now.shared.key }
    requires frame { IsFrame (P.segs frame.now) × (last + 1 ≡ size P.segs frame.now) }
    ensures seat { (seat.new.table_id ≡ seat.old.table_id) × (seat.new.id ≡ seat.old.id) }
    ensures view { seat.new.me ≡ (with_draft (pairs (take last (P.segs frame.now))) seat.old.me.0, seat.old.me.1) }
    ensures place { result ≡ (extent P.segs seat.old.me.0.driver.posted + last) % count }
{
    let mut place = start;
    for i in 0..last {
        write_segment(ring, seat, place, frame.seg(i));
        place = next_place(place, count);
    }
    place
}

// The last descriptor of a frame, whose slot gets the frame, and then the tail.
pub(crate) fn hand_over<P: Framed>(
    ring: &RingTable<P>,
    seat: &mut RingSeat<P>,
    place: usize,
    after: usize,
    last: usize,
    frame: P,
)
    requires table { (seat.old.table_id ≡ ring.now.shared.table_id)
        × HasRingSizes ring.now.shared.key ring.now.shared.table_id }
    requires ready { IsDrafting P.segs ring.now.shared.key seat.old.me.0 place × (seat.old.me.1 ≡ []) }
    requires frame { IsFrame (P.segs frame)
        × (last + 1 ≡ size P.segs frame)
        × (seat.old.me.0.driver.draft ≡ pairs (take last (P.segs frame))) }
    requires after { after ≡ (place + 1) % ring.now.shared.key }
    ensures seat { (seat.new.table_id ≡ seat.old.table_id) × (seat.new.id ≡ seat.old.id) }
    ensures view { seat.new.me ≡ (with_driver (posting frame seat.old.me.0.driver) seat.old.me.0, []) }
{
    let seg = frame.seg(last);
    write_address(ring, seat, place, seg.address);
    let word = status_word(seg.len, true, false);
    write_last(ring, seat, place, word);
    exchange(ring, seat, place, Some(frame));
    move_tail(ring, seat, after);
}
