/// What a call of a device found.
#[derive(Clone, Copy, Debug, PartialEq, Eq)]
pub enum Gathered {
    /// A reply of so many bytes was put, each byte of it.
    Sent { call: u32, bytes: u64 },
    /// A reply was completed, of which some bytes were not put, since a put or a flush has failed.
    Dropped { call: u32, bytes: u64 },
    /// Nothing is posted.
    Empty,
    /// Nothing is posted, and nothing more comes.
    Closed,
}
