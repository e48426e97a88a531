//! Laws over the definitions, each the contract of a call that does nothing.
ghost use Rattle.pin_core.specs.Laws.{EventsKeepSound};

/// Whatever events happen to the buffers of a pool, from its opening on, an exclusive hold is the only one of its
/// buffer, all holds of a buffer see the words that are in it, and no credit is lost.
pub fn events_keep_sound<H>()
    ensures { EventsKeepSound H }
{}
