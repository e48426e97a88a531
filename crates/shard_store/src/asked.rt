//! What a part is run with, and which part.
use flake_base::Entry;
use order_book::{Book, BookName};
use pinned_pool::{ClaimStart, Pool, PoolName};
use shard_part::Part;

/// The pool and the book that all sessions of a run share.
#[derive(Clone, Copy)]
pub struct Commons<'a, N: BookName, P: PoolName> {
    pub pool: &'a Pool<P>,
    pub book: &'a Book<N>,
}

/// A part of a command, the entry that it gets in the history of its shard, and where its claims begin.
#[derive(Clone, Copy)]
pub struct AskedPart<'a> {
    pub at: Entry,
    pub part: Part<'a>,
    pub start: ClaimStart,
}
