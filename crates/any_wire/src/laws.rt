//! What puts and flushes that tell what they do come to, one after another.
ghost use Rattle.std.specs.Prelude.{Bool, List, ℕ};
ghost use Rattle.flake_base.specs.Told.{WireTold};
ghost use Rattle.any_wire.specs.Sent.{SendsAreTold, FlushIsTold};

use crate::calls::WireCalls;

/// A text that was put in pieces, with flushes between them, until one failed.
pub fn sends_are_told<W, C: WireCalls<W>>(calls: &C)
    ensures { (tells : W → WireTold) → SendsAreTold (C.put_may calls.now) (C.flush_may calls.now) tells }
{}

/// And a flush behind it, after which a wire that didn't fail keeps nothing back.
pub fn flush_is_told<W, C: WireCalls<W>>(calls: &C)
    ensures { (tells : W → WireTold) → FlushIsTold (C.put_may calls.now) (C.flush_may calls.now) tells }
{}
