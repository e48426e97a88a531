//! Laws over the definitions, each the contract of a call that does nothing.
ghost use Rattle.pinned_pool.specs.Addresses.{OneByteEach};
ghost use Rattle.pinned_pool.specs.InWords.{SoundInWords};
ghost use Rattle.pinned_pool.specs.StepKinds.{StepsAreEvents};
ghost use Rattle.pinned_pool.specs.Runs.{RunsStaySound, ViewsCountRuns};

/// Each step of a live seat keeps the rule, and makes of all seats' holds and credits what its events make of a plain
/// list of holds. A count word falls to 0 only by the unpin that met 1, and a data word changes only by a put under the
/// only hold of its buffer.
pub fn steps_are_events()
    ensures { StepsAreEvents }
{}

/// What the rule's sums say of single holds.
pub fn sound_in_words()
    ensures { SoundInWords }
{}

/// The rule holds at the opening, and after any steps by any seats from then on.
pub fn runs_stay_sound()
    ensures { RunsStaySound }
{}

/// After any steps from the opening on, the claims, looks and returns of all seats are how many claims won, claims lost
/// and unpins of pinned holds there were.
pub fn runs_are_told()
    ensures { ViewsCountRuns }
{}

/// No address is that of two bytes.
pub fn one_byte_each()
    ensures { OneByteEach }
{}
