//! What a plan was given.
ghost use Rattle.std.specs.Prelude.{◌≡◌};
ghost use Rattle.reply_planner.specs.Told.{told, does};

use pinned_pool::{PoolName, PoolSeat};
use std::snapshot::Snapshot;

/// One thing that a plan was given.
#[derive(Drop)]
pub(crate) enum Step<N: PoolName> {
    /// The bytes of this text from a place on.
    Copied {
        place: usize,
        text: Snapshot<Vec<u8>>,
    },
    Began {
        len: u64,
    },
    BeganPart {
        len: u64,
    },
    /// A run of a buffer's bytes, as the owner's holds had them.
    Took {
        owner: Snapshot<PoolSeat<N>>,
        buffer: u32,
        from: u32,
        len: u32,
    },
    /// A fragment with the owner's hold.
    TookOver {
        owner: Snapshot<PoolSeat<N>>,
        buffer: u32,
        len: u32,
    },
    Finished,
}

/// All that a plan was given. The program keeps nothing of it, and contracts see all.
#[derive(Drop)]
pub(crate) enum History<N: PoolName> {
    Nothing,
    Then(Snapshot<Step<N>>, Snapshot<History<N>>),
}

impl<N: PoolName> History<N> {
    pub(crate) fn add(&mut self, step: Step<N>)
        ensures { told N.sizes self.new ≡ does N.sizes (told N.sizes self.old) step }
    {
        let step = Snapshot::of(&step);
        let before = Snapshot::of(self);
        *self = History::Then(step, before);
    }
}
