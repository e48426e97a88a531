use pinned_pool::NoBuffer;
use std::alloc::AllocError;

/// Why a stage is not opened.
#[derive(Clone, Copy, PartialEq, Eq, Debug)]
pub enum OpenError {
    NoBuffer(NoBuffer),
    Memory,
}

impl From<AllocError> for OpenError {
    ghost use Rattle.std.specs.Prelude.{◌≡◌};
    ghost use Rattle.reply_planner.specs.Stages.{no_memory};

    ghost from_gives = { λ _ result. result ≡ no_memory };

    fn from(_: AllocError) -> Self {
        OpenError::Memory
    }
}
