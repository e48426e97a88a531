use crate::passing::SESSION_CREDITS;
use crate::spread::ClaimSpread;
use pinned_pool::ClaimStart;
use reply_planner::STAGE_SIZE;

/// How much of everything a run is given.
#[derive(Clone, Copy, Debug, PartialEq, Eq)]
pub struct RunSizes {
    pub shards: u16,
    /// How many buffers of each class the pool has.
    pub small: u32,
    pub large: u32,
    /// How many descriptors the ring has.
    pub ring: u32,
    /// A run of a stored fragment with at least so many bytes stays where it lies.
    pub threshold: u32,
    /// Before which call of the first session all shards are dumped, if they are.
    pub dump: Option<u32>,
    /// How many bytes a frame has at most, if replies go as frames.
    pub mtu: Option<u16>,
}

impl RunSizes {
    ghost use Rattle.std.specs.Prelude.{◌≡◌, ◌-◌, ◌*◌, ◌/◌, ◌^◌, ◌<◌, ◌≤◌};
    ghost use Rattle.run_resources.specs.Opened.{HasRunSizes, dump_credits, pool_sizes};

    /// So many credits the pool of so many sessions has.
    pub fn pool_credits(&self, count: usize) -> u64
        requires { HasRunSizes count self.now }
        ensures credits { result ≡ (pool_sizes count self.now).credits }
        ensures few { (0 < result) × (result ≤ 2 ^ 31) }
    {
        SESSION_CREDITS * count as u64 + u64::from(self.shards) + 1 + self.dump_credits()
    }

    /// So many of them are for the dump: one for each fragment of a value in each shard, and four.
    pub fn dump_credits(&self) -> u64
        ensures { result ≡ dump_credits self.now }
    {
        match self.dump {
            Some(_) => u64::from(self.shards) * (u64::from(self.small) + u64::from(self.large)) + 4,
            None => 0,
        }
    }

    /// Where the claims of so many sessions may begin: what stands behind their stages is shared out evenly.
    pub fn spread(&self, count: usize) -> ClaimSpread
        requires { HasRunSizes count self.now }
        ensures first { (result.first.small ≡ 128 * count) × (result.first.large ≡ 0) }
        ensures step { (result.step.small ≡ (self.now.small - 128 * count) / count)
            × (result.step.large ≡ self.now.large / count) }
    {
        let staged = STAGE_SIZE as u32 * count as u32;
        ClaimSpread {
            first: ClaimStart {
                small: staged,
                large: 0,
            },
            step: ClaimStart {
                small: (self.small - staged) / count as u32,
                large: self.large / count as u32,
            },
        }
    }
}
