use frag_value::PinnedPair;
use pinned_pool::PoolName;

/// What a shard had at a place of its history: so many deeds were done, and they leave these keys with their values, in
/// ascending byte order of the keys.
#[derive(Drop)]
pub struct ShardImage<P: PoolName> {
    pub place: u64,
    pub pairs: Vec<PinnedPair<P>>,
}
