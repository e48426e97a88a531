/// Why the frames of a source are not put together.
#[derive(Clone, Copy, Debug, PartialEq, Eq)]
pub enum JoinError {
    /// A read failed.
    ReadFault,
    /// It has more bytes than it may.
    TooLarge,
    /// The frame of this number, counted from 1, is the first that is refused.
    BadFrame { number: u64 },
    /// The least frame that is not there.
    Missing { call: u32, frame: u32 },
    Memory,
}
