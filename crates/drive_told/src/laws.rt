//! What the clauses of driven sessions, of the book and of the pool imply together, as contracts of calls that do
//! nothing.
ghost use Rattle.std.specs.Prelude.{false};
ghost use Rattle.any_wire.specs.Sends.{Sends};
ghost use Rattle.drive_told.specs.Together.{DrivenTogether, TranscriptTold};
ghost use Rattle.drive_told.specs.Worked.{WorkedDrive};

use any_wire::WireCalls;

/// Sessions that were driven each for itself were served as a whole, and what was said of them is right by their own
/// deeds, which are those of the shards' histories; and at the end no two fragments lie in one buffer.
pub fn driven_together<W, C: WireCalls<W>>(calls: &C)
    ensures { DrivenTogether (λ failed text old new. Sends (C.put_may calls.now) (C.flush_may calls.now) false
        failed text old new) }
{}

/// So it is a transcript, where wires tell what they are sent.
pub fn transcript_told<W, C: WireCalls<W>>(calls: &C)
    ensures { TranscriptTold (λ failed text old new. Sends (C.put_may calls.now) (C.flush_may calls.now) false
        failed text old new) }
{}

/// Worked sessions meet all that the layers hand up, so the laws are about something.
pub fn worked()
    ensures { WorkedDrive }
{}
