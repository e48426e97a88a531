//! What was put on a served session's wire, in other words, as the contract of a call that does nothing.
ghost use Rattle.std.specs.Prelude.{◌≡◌, ℕ, List, Bool, false};
ghost use Rattle.any_wire.specs.Sends.{Sends};
ghost use Rattle.session_serve.specs.Wires.{SendsOut, WasFlushed};

use any_wire::WireCalls;

/// The text was put, by puts of at most 512 bytes and a flush; and a wire that hasn't failed was flushed last of all.
pub fn sends_out<W, C: WireCalls<W>>(calls: &C)
    ensures sends { (failed now : Bool) (text : List ℕ) (old new : W)
        → SendsOut (C.put_may calls.now) (C.flush_may calls.now) failed now text old new
        → Sends (C.put_may calls.now) (C.flush_may calls.now) failed now text old new }
    ensures flushed { (failed now : Bool) (text : List ℕ) (old new : W)
        → SendsOut (C.put_may calls.now) (C.flush_may calls.now) failed now text old new
        → now ≡ false → WasFlushed (C.put_may calls.now) (C.flush_may calls.now) old new }
{}
