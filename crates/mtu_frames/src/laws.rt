//! What the definitions imply, in whatever order and however often frames are taken.
ghost use Rattle.mtu_frames.specs.Texts.{JoinsTexts, NamesLeast, GoesOnJoining, TakesFrames, TakesAnyOrder};

/// Where none is missing the replies are the texts whose frames were taken.
pub fn joins_texts()
    ensures { JoinsTexts }
{}

/// Where one is missing it is the least frame of the texts that was not taken.
pub fn names_least()
    ensures { NamesLeast }
{}

/// A joiner that took frames of texts, and one more of them, took frames of them alone.
pub fn goes_on()
    ensures { GoesOnJoining }
{}

/// A frame of the texts is not refused, unless memory runs out.
pub fn takes_frames()
    ensures { TakesFrames }
{}

/// Whatever frames of texts are taken, in whatever order and however often, the joiner then has them and no others.
pub fn takes_any_order()
    ensures { TakesAnyOrder }
{}
