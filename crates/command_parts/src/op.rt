use flake_base::ErrorKind;
use shard_part::PartOp;

/// What a request asks for. Keys and values stay among its words.
#[derive(Clone, Copy, Debug, PartialEq, Eq)]
pub enum Op {
    Ping,
    /// PING with an argument, which is its reply.
    PingWith,
    /// This is done to the only key, and its answer is the reply. It is never `Del` nor `Exists`.
    One(PartOp),
    MGet,
    Del,
    Exists,
    /// It is answered by this error and asks for nothing.
    Fault(ErrorKind),
}
