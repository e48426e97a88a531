// Bytes that are put in pieces.
ghost use Rattle.std.specs.Prelude.{◌≡◌, ◌∷◌, ◌++◌};
ghost use Rattle.std.specs.Fmt.{decimal};
ghost use Rattle.flake_model.specs.Resp.{crlf};
ghost use Rattle.any_wire.specs.Sends.{PutsText};

use any_wire::{MOST_PUT, WireCalls, put_unless_failed};
use resp_text::line;

/// Puts bytes in pieces of at most 512, until a put fails.
pub(crate) fn put_bytes<W: Drop, C: WireCalls<W>>(
    bytes: &[u8],
    wire: W,
    failed: bool,
    calls: &C,
) -> (W, bool)
    requires calls { C.can_put calls.now }
    ensures { PutsText (C.put_may calls.now) failed result.1 bytes.now wire result.0 }
{
    let mut wire = wire;
    let mut has_failed = failed;
    let mut done = 0;
    while done < bytes.len() {
        let count = (bytes.len() - done).min(MOST_PUT);
        let (after, now) = put_unless_failed(wire, has_failed, calls, &bytes[done..done + count]);
        wire = after;
        has_failed = now;
        done += count;
    }
    (wire, has_failed)
}

/// Puts the head of a bulk string of so many bytes.
pub(crate) fn put_head<W: Drop, C: WireCalls<W>>(
    bytes: u64,
    wire: W,
    failed: bool,
    calls: &C,
) -> (W, bool)
    requires calls { C.can_put calls.now }
    ensures { PutsText (C.put_may calls.now) failed result.1 (36 ∷ decimal bytes ++ crlf) wire result.0 }
{
    let mut room = [0u8; 24];
    let count = line(&mut room, b'$', bytes);
    put_bytes(&room[..count], wire, failed, calls)
}
