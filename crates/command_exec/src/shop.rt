use order_book::{Book, BookName};
use pinned_pool::{Pool, PoolName};
use shard_store::Store;

/// What all sessions share.
#[derive(Clone, Copy)]
pub struct Shop<'a, N: BookName, P: PoolName> {
    pub pool: &'a Pool<P>,
    pub book: &'a Book<N>,
    pub store: &'a Store<N, P>,
}
