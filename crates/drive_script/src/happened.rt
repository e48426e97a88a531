/// What happened at a line of a schedule.
#[derive(Clone, Copy, Debug, PartialEq, Eq)]
pub enum Happened {
    /// The next call was posted, behind so many reaps.
    Posted { call: u32, reaped: u32 },
    /// It needs more descriptors than are free.
    RingFull { need: u32, room: u32 },
    /// It needs more staging buffers than are free.
    StageFull { need: u32, free: u32 },
    /// There is no further call.
    AtEnd,
    /// A reply of so many bytes was sent.
    Sent { call: u32, bytes: u64 },
    /// It was dropped, since a put or a flush has failed.
    Dropped { call: u32, bytes: u64 },
    /// There was none to gather.
    NothingPosted,
    /// A reply was reaped, and so many of its holds were the last of their buffers.
    Reaped { call: u32, recycled: u64 },
    /// There was none to reap.
    NothingReaped,
}
