use flake_base::Memory;

/// Why a frame was not taken.
#[derive(Clone, Copy, Debug, PartialEq, Eq)]
pub enum BadFrame {
    /// It has so many bytes: fewer than a header has, or not as many as its header says.
    BadLength { len: u64 },
    /// This byte of the header is not 0.
    BadField { byte: u8 },
    /// The index is not below the number of frames.
    BadIndex { index: u32, count: u32 },
    /// It has so many bytes of its reply: none, more than fit, or not as many as fit though more frames follow.
    BadSize { len: u16 },
    /// There is no such call.
    BadCall { call: u32 },
    /// An earlier frame of the call has another count, or this index and other bytes.
    Conflict { call: u32, index: u32 },
    Memory,
}

impl From<Memory> for BadFrame {
    ghost use Rattle.std.specs.Prelude.{◌≡◌};
    ghost use Rattle.mtu_frames.specs.declared.error.BadFrame.TheVariants as errors;

    ghost from_gives = { λ _ error. error ≡ errors.Memory };

    fn from(_: Memory) -> Self {
        BadFrame::Memory
    }
}
