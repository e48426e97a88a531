//! What the definitions imply of all frames of some texts.
ghost use Rattle.join_files.specs.Texts.{JoinsFrames};

/// None of them is refused and none is missing, in whatever order they stand and however often; what is put together is
/// the texts.
pub fn joins_frames()
    ensures { JoinsFrames }
{}
