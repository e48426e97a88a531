ghost use Rattle.std.specs.Prelude.{◌≡◌, ◌+◌, ◌<◌, ◌≤◌, [], ◌∷◌, ◌++◌, length, take, drop, IfOk, OnOk, OnErr, None};
ghost use Rattle.pinned_pool.specs.Moves.{split_old};
ghost use Rattle.frag_value.specs.Taken.{copied};
ghost use Rattle.reply_planner.specs.Planned.{terms, planned, left_of, slots_of, room_of};

use crate::copying::append;
use crate::history::{History, Step};
use crate::lists::Lists;
use crate::stage::Stage;
use flake_base::Memory;
use pinned_pool::{Pool, PoolName, PoolSeat};
use reply_layout::Need;
use std::marker::Model;
use std::snapshot::Snapshot;

/// A reply in the making.
///
/// Its staging buffers stay with the session's seat until it is sealed.
pub struct Plan<'a, N: PoolName> {
    pub(crate) pool: &'a Pool<N>,
    // The holds of what stays where it lies, and the credits for more.
    pub(crate) seat: PoolSeat<N>,
    pub(crate) lists: Box<Lists<N>>,
    pub(crate) need: Need,
    pub(crate) threshold: u32,
    // Where the copied bytes begin that have no segment yet.
    pub(crate) run: usize,
    // How many of its holds took a credit.
    pub(crate) paid: u32,
    pub(crate) history: History<N>,
}

impl<'a, N: PoolName> Model for Plan<'a, N> {
    ghost use Rattle.std.specs.Prelude.{◌*◌, ◌≤◌, length, vec_capacity};
    ghost use Rattle.reply_planner.specs.Owned.{key_buffers};
    ghost use Rattle.reply_planner.specs.Told.{told};
    ghost use Rattle.reply_planner.specs.Planned.{Planned, terms, planned};
    ghost use Rattle.reply_planner.specs.Plans.{IsPlan, HasRoom};

    ghost Value = { Planned };

    ghost view = { λ p. planned (terms p.need.descriptors (key_buffers p.lists.value.staged.items) p.threshold)
        (told N.sizes p.history).taken (told N.sizes p.history).begun };

    ghost invariant = { λ p. IsPlan N.sizes
        (planned (terms p.need.descriptors (key_buffers p.lists.value.staged.items) p.threshold)
        (told N.sizes p.history).taken (told N.sizes p.history).begun)
        p.lists.value.text.items p.lists.value.segments.items p.lists.value.pins.items p.lists.value.staged.items
        p.run p.paid p.seat
        × HasRoom p.need.descriptors (length p.lists.value.staged.items) (vec_capacity p.lists.value.text)
        (vec_capacity p.lists.value.segments) (vec_capacity p.lists.value.pins) };
}

impl<'a, N: PoolName> Plan<'a, N> {
    /// Takes all memory that the plan needs, its staging buffers out of the stage, and a seat of its own. A run of a
    /// stored fragment that has at least `threshold` bytes will stay where it lies.
    pub fn start(
        pool: &'a Pool<N>,
        seat: &mut PoolSeat<N>,
        stage: &mut Stage<N>,
        need: Need,
        threshold: u32,
    ) -> Result<Plan<'a, N>, Memory>
        requires stage { need.stage ≤ length stage.old }
        requires credits { need.descriptors + 4 ≤ seat.old.credits }
        requires slots { need.stage ≤ need.descriptors }
        requires threshold { (0 < threshold) × (threshold ≤ 512) }
        ensures plan { IfOk result (λ p.
            p ≡ planned (terms need.descriptors (take need.stage stage.old) threshold) [] None) }
        ensures seat { OnOk result (seat.new ≡ split_old [] (need.descriptors + 3) seat.old) }
        ensures stage { OnOk result (stage.new ≡ drop need.stage stage.old) }
        ensures memory { OnErr result ((seat.new ≡ seat.old) × (stage.new ≡ stage.old)) }
    {
        let lists = stage.lend(need)?;
        let own = pool.split(seat, (), u64::from(need.descriptors) + 3);
        Ok(Plan {
            pool,
            seat: own,
            lists,
            need,
            threshold,
            run: 0,
            paid: 0,
            history: History::Nothing,
        })
    }

    /// Adds copied bytes.
    pub fn copy(&mut self, bytes: &[u8])
        requires none { self.old.begun ≡ None }
        requires fits { length bytes.now ≤ left_of self.old }
        ensures plan { self.new ≡ planned self.old.base (self.old.taken ++ copied bytes.now ∷ []) None }
        ensures left { left_of self.old ≡ left_of self.new + length bytes.now }
        ensures slots { slots_of self.new ≡ slots_of self.old }
        ensures room { length bytes.now ≤ 521 → room_of self.old ≤ room_of self.new + 1 }
    {
        let lists = &mut *self.lists;
        let place = lists.text.len();
        append(&mut lists.text, bytes);
        let text = Snapshot::of(&lists.text);
        self.history.add(Step::Copied { place, text });
    }
}
