// Keys with their values.
ghost use Rattle.std.specs.Prelude.{◌≡◌};
ghost use Rattle.dump_model.specs.Dump.{pairs_text, set_text};
ghost use Rattle.frag_value.specs.Values.{value_bytes};
ghost use Rattle.any_wire.specs.Sends.{PutsText};
ghost use Rattle.frag_value.specs.Pins.{IsPinned, all_frags, pairs_shown};

use crate::putting::{put_bytes, put_head};
use crate::values::put_value;
use any_wire::{MOST_PUT, WireCalls};
use frag_value::PinnedPair;
use pinned_pool::{Pool, PoolName, PoolSeat};

// Puts the request that sets a key to its value.
fn put_pair<N: PoolName, W: Drop, C: WireCalls<W>>(
    pool: &Pool<N>,
    seat: &mut PoolSeat<N>,
    pair: &PinnedPair<N>,
    room: &mut [u8; MOST_PUT],
    wire: W,
    failed: bool,
    calls: &C,
) -> (W, bool)
    requires calls { C.can_put calls.now }
    requires value { IsPinned seat.old.holds pair.now.1 }
    ensures seat { seat.new ≡ seat.old }
    ensures puts { PutsText (C.put_may calls.now) failed result.1
        (set_text (pair.now.0, value_bytes seat.old.holds pair.now.1)) wire result.0 }
{
    let key = pair.key();
    let value = pair.value();
    let (begun, failed) = put_bytes(b"*3\r\n$3\r\nSET\r\n", wire, failed, calls);
    let (headed, failed) = put_head(key.len() as u64, begun, failed, calls);
    let (keyed, failed) = put_bytes(key, headed, failed, calls);
    let (ended, failed) = put_bytes(b"\r\n", keyed, failed, calls);
    let (sized, failed) = put_head(value.len(), ended, failed, calls);
    let (valued, failed) = put_value(pool, seat, value, room, sized, failed, calls);
    put_bytes(b"\r\n", valued, failed, calls)
}

/// Puts a request for each pair, in order, until a put fails; answers whether one has failed.
pub(crate) fn put_pairs<N: PoolName, W: Drop, C: WireCalls<W>>(
    pool: &Pool<N>,
    seat: &mut PoolSeat<N>,
    pairs: &[PinnedPair<N>],
    wire: W,
    failed: bool,
    calls: &C,
) -> (W, bool)
    requires calls { C.can_put calls.now }
    requires values { IsPinned seat.old.holds (all_frags pairs.now) }
    ensures seat { seat.new ≡ seat.old }
    ensures puts { PutsText (C.put_may calls.now) failed result.1
        (pairs_text (pairs_shown seat.old.holds pairs.now)) wire result.0 }
{
    let mut room = [0u8; MOST_PUT];
    let mut wire = wire;
    let mut has_failed = failed;
    for i in 0..pairs.len() {
        let (after, now) = put_pair(pool, seat, &pairs[i], &mut room, wire, has_failed, calls);
        wire = after;
        has_failed = now;
    }
    (wire, has_failed)
}
