// Sessions before they are served and after.
use flake_base::Source;
use order_book::BookName;
use pinned_pool::{PoolName, PoolSeat};
use session_serve::{Link, ServedAccount};

/// What waits for a worker: with its wire, and the wire of the dump that it is asked for.
#[derive(Drop)]
pub struct Waiting<L, W> {
    pub link: L,
    pub wire: W,
    pub dump_wire: Option<W>,
}

/// A session that waits for a worker.
pub type ServeJob<N, P, S, W> = Waiting<Link<N, P, S>, W>;

/// What came of a dump. Where none was taken, there are no points and no bytes, and the wire is as it was.
#[derive(Drop)]
pub struct Dumped<P: PoolName, W> {
    /// How many deeds of each shard it stands behind.
    pub points: Vec<u64>,
    pub taken: bool,
    /// How long its text is.
    pub bytes: u64,
    /// A put or the flush failed.
    pub failed: bool,
    pub seat: PoolSeat<P>,
    pub wire: W,
}

/// A session that was served, and the dump that it was asked for.
#[derive(Drop)]
pub struct FinishedJob<N: BookName, P: PoolName, S: Source, W> {
    pub account: ServedAccount<N, P, S>,
    pub wire: W,
    pub dump: Option<Dumped<P, W>>,
}
