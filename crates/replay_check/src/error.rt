use flake_base::Memory;

/// Why a journal gives no replies.
#[derive(Clone, Copy, Debug, PartialEq, Eq)]
pub enum AnswerError {
    /// The first place that isn't in order: the least shard, and in it the least place of its history, whose end has
    /// the history's length as its place.
    BadJournal { shard: u16, place: u64 },
    Memory,
}

impl From<Memory> for AnswerError {
    ghost use Rattle.std.specs.Prelude.{◌≡◌};
    ghost use Rattle.replay_check.specs.declared.error.AnswerError.TheVariants as errors;

    ghost from_gives = { λ _ error. error ≡ errors.Memory };

    fn from(_: Memory) -> Self {
        AnswerError::Memory
    }
}
