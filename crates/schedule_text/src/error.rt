use flake_base::Memory;

/// Why a text wasn't read.
#[derive(Clone, Copy, Debug, PartialEq, Eq)]
pub enum ScheduleError {
    /// The first line that asks for nothing, counted from 1.
    BadLine { line: u64 },
    Memory,
}

impl From<Memory> for ScheduleError {
    ghost use Rattle.std.specs.Prelude.{◌≡◌};
    ghost use Rattle.schedule_text.specs.declared.error.ScheduleError.TheVariants as errors;

    ghost from_gives = { λ _ error. error ≡ errors.Memory };

    fn from(_: Memory) -> Self {
        ScheduleError::Memory
    }
}

impl<T: Drop> From<(Memory, T)> for ScheduleError {
    ghost use Rattle.std.specs.Prelude.{◌≡◌};
    ghost use Rattle.schedule_text.specs.declared.error.ScheduleError.TheVariants as errors;

    ghost from_gives = { λ _ error. error ≡ errors.Memory };

    fn from(_: (Memory, T)) -> Self {
        ScheduleError::Memory
    }
}
