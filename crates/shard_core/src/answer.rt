use pinned_pool::NoBuffer;

/// What a part answered. The bytes of a `Bulk` went to the taker.
#[derive(Clone, Copy, Debug, PartialEq, Eq)]
pub enum PartAnswer {
    Bulk,
    Null,
    Done,
    Length(u64),
    Did(bool),
    TooLong,
    NoBuffer(NoBuffer),
}
