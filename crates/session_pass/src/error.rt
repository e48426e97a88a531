/// Why a call posts nothing.
#[derive(Clone, Copy, PartialEq, Eq, Debug)]
pub enum CallError {
    /// The command needs more descriptors than are free, and the oldest reply isn't sent.
    RingFull { need: u32, room: u32 },
    /// It needs more staging buffers than are free, and the oldest reply isn't sent.
    StageFull { need: u32, free: u32 },
    /// Memory was wanting. Later calls answer this again, and do nothing.
    Memory,
}
