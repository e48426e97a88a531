//! What a dump that was taken implies, as the contract of a call that does nothing.
ghost use Rattle.pin_dump.specs.Taken.{TakenIsSeen};

/// Where a session took a dump between two of its calls, it has seen each shard there.
pub fn taken_is_seen()
    ensures { TakenIsSeen }
{}
