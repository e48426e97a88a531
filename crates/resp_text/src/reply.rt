use flake_base::{Bytes, ErrorKind, Sequence};

/// The items of an array: bulk strings, and null bulk strings where there is nothing.
pub type Items = Sequence<Option<Bytes>>;

/// The answer to one request, as RESP2 has it.
#[derive(Drop)]
pub enum Reply {
    /// The simple string that says that it was done.
    Ok,
    /// The simple string that answers a PING without an argument.
    Pong,
    Error(ErrorKind),
    Int(u64),
    Bulk(Bytes),
    /// The null bulk string.
    Null,
    Array(Items),
}
