//! What puts and flushes that tell what they do make of a drive.
ghost use Rattle.std.specs.Prelude.{Bool, List, ℕ};
ghost use Rattle.flake_base.specs.Told.{WireTold};
ghost use Rattle.drive_inputs.specs.Shown.{IsTranscriptTold};

use any_wire::WireCalls;

/// What was said of a drive is a transcript by the journal, and by what the wires tell.
pub fn transcript_is_told<W, C: WireCalls<W>>(calls: &C)
    ensures { (tells : W → WireTold) → IsTranscriptTold (C.put_may calls.now) (C.flush_may calls.now) tells }
{}
