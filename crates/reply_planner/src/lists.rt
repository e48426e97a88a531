ghost use Rattle.std.specs.Prelude.{◌*◌, ◌≤◌, vec_capacity, OnOk};
ghost use Rattle.reply_planner.specs.Stages.{AreEmpty};

use flake_base::{Memory, Seg};
use pinned_pool::{Hold, PoolName};
use reply_layout::Need;
use std::alloc::Global;

/// The lists of a reply, whose memory goes from one reply to the next.
#[derive(Drop)]
pub(crate) struct Lists<N: PoolName> {
    /// Bytes that are copied.
    pub(crate) text: Vec<u8>,
    pub(crate) segments: Vec<Seg>,
    /// Holds of stored fragments.
    pub(crate) pins: Vec<Hold<N>>,
    /// Holds of staging buffers.
    pub(crate) staged: Vec<Hold<N>>,
}

impl<N: PoolName> Lists<N> {
    pub(crate) fn new(alloc: Global) -> Self
        ensures { AreEmpty result.text.items result.segments.items result.pins.items result.staged.items }
    {
        Lists {
            text: Vec::new(alloc),
            segments: Vec::new(alloc),
            pins: Vec::new(alloc),
            staged: Vec::new(alloc),
        }
    }

    // Empties the lists.
    pub(crate) fn clear(&mut self)
        ensures { AreEmpty self.new.text.items self.new.segments.items self.new.pins.items self.new.staged.items }
    {
        self.text.clear();
        self.segments.clear();
        self.pins.clear();
        self.staged.clear();
    }

    // Makes room for all that the need allows.
    pub(crate) fn reserve(&mut self, need: Need) -> Result<(), Memory>
        requires { AreEmpty self.old.text.items self.old.segments.items self.old.pins.items self.old.staged.items }
        ensures empty { AreEmpty self.new.text.items self.new.segments.items self.new.pins.items self.new.staged.items }
        ensures text { OnOk result (512 * need.stage ≤ vec_capacity self.new.text) }
        ensures segments { OnOk result (need.descriptors ≤ vec_capacity self.new.segments) }
        ensures pins { OnOk result (need.descriptors ≤ vec_capacity self.new.pins) }
        ensures staged { OnOk result (need.stage ≤ vec_capacity self.new.staged) }
    {
        let descriptors = need.descriptors as usize;
        let stage = need.stage as usize;
        self.text.reserve(512 * stage)?;
        self.segments.reserve(descriptors)?;
        self.pins.reserve(descriptors)?;
        self.staged.reserve(stage)?;
        Ok(())
    }
}
