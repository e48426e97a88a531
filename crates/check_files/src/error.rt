use flake_base::Memory;
use journal_text::JournalError;

/// Why a source wasn't read whole.
#[derive(Clone, Copy, Debug, PartialEq, Eq)]
pub enum Unread {
    /// A read failed.
    Fault,
    /// It has more bytes than the limit.
    TooLarge,
    Memory,
}

impl From<Memory> for Unread {
    ghost use Rattle.std.specs.Prelude.{◌≡◌};
    ghost use Rattle.check_files.specs.declared.error.Unread.TheVariants as unread;

    ghost from_gives = { λ _ error. error ≡ unread.Memory };

    fn from(_: Memory) -> Self {
        Unread::Memory
    }
}

/// Why there is no verdict. Files are counted from 0.
#[derive(Clone, Copy, Debug, PartialEq, Eq)]
pub enum CheckError {
    /// This file did not open.
    OpenFault { file: u16 },
    /// A read of this file failed.
    ReadFault { file: u16 },
    /// This file has more bytes than its limit.
    TooLarge { file: u16 },
    /// The first line of the journal's file that no journal's text has there, counted from 1.
    BadLine { line: u64 },
    Memory,
}

impl From<Memory> for CheckError {
    ghost use Rattle.std.specs.Prelude.{◌≡◌};
    ghost use Rattle.check_files.specs.declared.error.CheckError.TheVariants as errors;

    ghost from_gives = { λ _ error. error ≡ errors.Memory };

    fn from(_: Memory) -> Self {
        CheckError::Memory
    }
}

impl From<JournalError> for CheckError {
    ghost use Rattle.std.specs.Prelude.{◌≡◌};
    ghost use Rattle.check_files.specs.Stopped.{of_journal};

    ghost from_gives = { λ refused error. error ≡ of_journal refused };

    fn from(error: JournalError) -> Self {
        match error {
            JournalError::BadLine { line } => CheckError::BadLine { line },
            JournalError::Memory => CheckError::Memory,
        }
    }
}
