ghost use Rattle.std.specs.Prelude.{◌<◌, ◌≤◌, length};
ghost use Rattle.any_wire.specs.Sends.{Puts, Flushes};

use crate::calls::WireCalls;

/// A put takes at most so many bytes.
pub const MOST_PUT: usize = 512;

/// Puts a piece, where nothing has failed; answers whether something has failed now.
pub fn put_unless_failed<W: Drop, C: WireCalls<W>>(
    wire: W,
    failed: bool,
    calls: &C,
    piece: &[u8],
) -> (W, bool)
    requires { C.can_put calls.now }
    ensures { Puts (C.put_may calls.now) failed result.1 piece.now wire result.0 }
{
    if failed {
        return (wire, true);
    }
    calls.put(wire, piece)
}

/// Hands on what the wire keeps back, where nothing has failed; answers whether something has failed now.
pub fn flush_unless_failed<W: Drop, C: WireCalls<W>>(wire: W, failed: bool, calls: &C) -> (W, bool)
    requires { C.can_flush calls.now }
    ensures { Flushes (C.flush_may calls.now) failed result.1 wire result.0 }
{
    if failed {
        return (wire, true);
    }
    calls.flush(wire)
}
