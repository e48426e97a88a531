use flake_base::Memory;

/// Why a text wasn't read.
#[derive(Clone, Copy, Debug, PartialEq, Eq)]
pub enum JournalError {
    /// The first line that no journal's text has there, counted from 1. An empty text has a bad first line.
    BadLine { line: u64 },
    Memory,
}

impl From<Memory> for JournalError {
    ghost use Rattle.std.specs.Prelude.{◌≡◌};
    ghost use Rattle.journal_text.specs.declared.error.JournalError.TheVariants as errors;

    ghost from_gives = { λ _ error. error ≡ errors.Memory };

    fn from(_: Memory) -> Self {
        JournalError::Memory
    }
}
