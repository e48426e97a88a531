ghost use Rattle.std.specs.Prelude.{
  ◌≡◌,
  ◌+◌,
  ◌*◌,
  ◌<◌,
  ◌≤◌,
  [],
  length,
  take,
  drop,
  vec_len,
  vec_capacity,
  IfOk,
  IfErr,
  OnOk,
  OnErr,
};
ghost use Rattle.std.specs.List.{insert};
ghost use Rattle.view_sums.specs.Total.{Each};
ghost use Rattle.pin_core.specs.declared.class.Class.TheVariants.{Small};
ghost use Rattle.pinned_pool.specs.Classes.{just};
ghost use Rattle.pinned_pool.specs.Sought.{Sought};
ghost use Rattle.reply_planner.specs.Owned.{AreOwn, IsStaging, keys_for, key_buffers};
ghost use Rattle.reply_planner.specs.Stages.{
  stage_size,
  IsOrdered,
  inserted,
  merged,
  IsStageOpened,
  WhyUnopened,
  IsClosed,
  stage_found_none,
};

use crate::error::OpenError;
use crate::lists::Lists;
use flake_base::Memory;
use pinned_pool::{ClaimStart, Class, Hold, Pool, PoolName, PoolSeat};
use reply_layout::Need;
use std::alloc::Global;
use std::marker::Model;

/// How many staging buffers a session has.
pub const STAGE_SIZE: usize = 128;

/// The staging buffers of a session that no reply uses. Contracts see them in ascending order.
///
/// The session's seat has an exclusive hold of each.
#[derive(Drop)]
pub struct Stage<N: PoolName> {
    // In descending order, so that the last one has the least address.
    pub(crate) free: Vec<Hold<N>>,
    // Lists that came back.
    pub(crate) spare: Vec<Box<Lists<N>>>,
    pub(crate) alloc: Global,
}

// Puts a hold at a place of a list with room. Most come back to the end, and that costs less.
#[inline(always)]
fn insert_reserved<N: PoolName>(list: &mut Vec<Hold<N>>, place: usize, hold: Hold<N>)
    requires place { place ≤ length list.old.items }
    requires room { vec_len list.old < vec_capacity list.old }
    ensures items { list.new.items ≡ insert list.old.items place hold }
    ensures capacity { vec_capacity list.new ≡ vec_capacity list.old }
{
    if place == list.len() {
        list.push_reserved(hold);
    } else {
        // There is room, so it doesn't fail.
        let _ = list.insert(place, hold);
    }
}

impl<N: PoolName> Model for Stage<N> {
    ghost use Rattle.std.specs.Prelude.{ℕ, List, reverse, vec_capacity};
    ghost use Rattle.reply_planner.specs.Owned.{key_buffers};
    ghost use Rattle.reply_planner.specs.Stages.{IsStageHeld};

    ghost Value = { List ℕ };

    ghost view = { λ s. key_buffers (reverse s.free.items) };

    ghost invariant = { λ s. IsStageHeld N.sizes s.free.items (vec_capacity s.free) };
}

impl<N: PoolName> Stage<N> {
    /// Claims 128 small buffers.
    pub fn open(
        alloc: Global,
        pool: &Pool<N>,
        seat: &mut PoolSeat<N>,
    ) -> Result<Stage<N>, OpenError>
        ensures opened { IfOk result (λ s. IsStageOpened N.sizes s seat.old seat.new) }
        ensures refused { IfErr result (λ e. WhyUnopened N.sizes e seat.old seat.new) }
        ensures sought { Sought N.sizes (just Small stage_size) (stage_found_none result) seat.old seat.new }
    {
        let mut holds = Vec::with_capacity(alloc, STAGE_SIZE)?;
        let mut stage = Stage {
            free: Vec::with_capacity(alloc, STAGE_SIZE)?,
            spare: Vec::with_capacity(alloc, STAGE_SIZE)?,
            alloc,
        };
        if let Err(none) = pool.claim_each(
            seat,
            Class::Small,
            STAGE_SIZE,
            ClaimStart::FIRST,
            &mut holds,
        ) {
            pool.unclaim(seat, &mut holds);
            return Err(OpenError::NoBuffer(none));
        }
        seat.is_seat();
        stage.put_all(&mut holds);
        Ok(stage)
    }

    /// How many staging buffers are free.
    pub fn free(&self) -> u32
        ensures free { result ≡ length self.now }
        ensures few { result ≤ stage_size }
        ensures ordered { IsOrdered self.now }
    {
        self.free.len() as u32
    }

    /// Gives all holds back.
    pub fn close(self, pool: &Pool<N>, seat: &mut PoolSeat<N>)
        requires all { length self ≡ stage_size }
        requires own { AreOwn seat.old.holds self }
        ensures { IsClosed self seat.old seat.new }
    {
        let mut stage = self;
        while let Some(hold) = stage.free.pop() {
            pool.unpin(seat, hold);
        }
    }

    /// Lends lists with room for a reply, and the holds of its staging buffers: the first ones.
    pub(crate) fn lend(&mut self, need: Need) -> Result<Box<Lists<N>>, Memory>
        requires { need.stage ≤ length self.old }
        ensures rest { OnOk result (self.new ≡ drop need.stage self.old) }
        ensures staged { IfOk result (λ l. l.value.staged.items ≡ keys_for (take need.stage self.old)) }
        ensures staging { IfOk result (λ l. Each (IsStaging N.sizes) l.value.staged.items) }
        ensures empty { IfOk result (λ l.
            (l.value.text.items ≡ []) × (l.value.segments.items ≡ []) × (l.value.pins.items ≡ [])) }
        ensures text { IfOk result (λ l. 512 * need.stage ≤ vec_capacity l.value.text) }
        ensures room { IfOk result (λ l.
            (need.descriptors ≤ vec_capacity l.value.segments) × (need.descriptors ≤ vec_capacity l.value.pins)) }
        ensures memory { OnErr result (self.new ≡ self.old) }
    {
        let mut lists = match self.spare.pop() {
            Some(lists) => lists,
            None => Box::new(self.alloc, Lists::new(self.alloc))?,
        };
        lists.clear();
        lists.reserve(need)?;
        self.move_least(need.stage as usize, &mut lists.staged);
        Ok(lists)
    }

    // Moves the holds of the first buffers out.
    fn move_least(&mut self, count: usize, staged: &mut Vec<Hold<N>>)
        requires count { count ≤ length self.old }
        requires room { (staged.old.items ≡ []) × (count ≤ vec_capacity staged.old) }
        ensures rest { self.new ≡ drop count self.old }
        ensures staged { staged.new.items ≡ keys_for (take count self.old) }
        ensures staging { Each (IsStaging N.sizes) staged.new.items }
    {
        while staged.len() < count {
            if let Some(hold) = self.free.pop() {
                staged.push_reserved(hold);
            }
        }
    }

    // Puts a hold in its place, which is looked for from the end on.
    #[inline(never)]
    fn put_before(&mut self, hold: Hold<N>)
        requires staging { IsStaging N.sizes hold }
        requires room { length self.old + 1 ≤ stage_size }
        ensures { self.new ≡ inserted hold.buffer self.old }
    {
        let mut place = self.free.len();
        while place > 0 && self.free[place - 1].buffer() < hold.buffer() {
            place -= 1;
        }
        insert_reserved(&mut self.free, place, hold);
    }

    // Puts a hold in its place. Most come to the end.
    #[inline(always)]
    pub(crate) fn put(&mut self, hold: Hold<N>)
        requires staging { IsStaging N.sizes hold }
        requires room { length self.old + 1 ≤ stage_size }
        ensures { self.new ≡ inserted hold.buffer self.old }
    {
        let end = self.free.len();
        if end > 0 && self.free[end - 1].buffer() < hold.buffer() {
            self.put_before(hold);
        } else {
            insert_reserved(&mut self.free, end, hold);
        }
    }

    // Puts several holds in their places.
    pub(crate) fn put_all(&mut self, holds: &mut Vec<Hold<N>>)
        requires staging { Each (IsStaging N.sizes) holds.old.items }
        requires room { length self.old + length holds.old.items ≤ stage_size }
        ensures stage { self.new ≡ merged (key_buffers holds.old.items) self.old }
        ensures none { holds.new.items ≡ [] }
    {
        while let Some(hold) = holds.pop() {
            self.put(hold);
        }
    }

    /// Takes lists back, with the staging buffers in them.
    #[inline(always)]
    pub(crate) fn restore(&mut self, lists: Box<Lists<N>>)
        requires staging { Each (IsStaging N.sizes) lists.value.staged.items }
        requires room { length self.old + length lists.value.staged.items ≤ stage_size }
        ensures { self.new ≡ merged (key_buffers lists.value.staged.items) self.old }
    {
        let mut lists = lists;
        self.put_all(&mut lists.staged);
        if self.spare.len() < self.spare.capacity() {
            self.spare.push_reserved(lists);
        }
    }
}
