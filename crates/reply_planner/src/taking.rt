//! A plan takes values and ranges of values.
ghost use Rattle.std.specs.Prelude.{◌≡◌, ℕ, ◌+◌, ◌*◌, ◌<◌, ◌≤◌, ◌-◌, ◌/◌, ◌∷◌, ◌++◌, [], false, length, vec_capacity};
ghost use Rattle.std.specs.Prelude.{MatchOption, true};
ghost use Rattle.pinned_pool.specs.Addresses.{address_of};
ghost use Rattle.pinned_pool.specs.Moves.{meant_count, front_of};
ghost use Rattle.frag_value.specs.Taken.{
  placed_part,
  placed_over,
  MayComeNext,
  MayShare,
  Loses,
};
ghost use Rattle.reply_layout.specs.Layout.{cut, segment};
ghost use Rattle.reply_planner.specs.Owned.{key_buffers};
ghost use Rattle.reply_planner.specs.Places.{buffer_addresses};
ghost use Rattle.reply_planner.specs.Told.{with_run};
ghost use Rattle.reply_planner.specs.Planned.{planned};

use crate::copying::{append_end, append_head, append_run};
use crate::history::Step;
use crate::laying::lay_run;
use crate::lists::Lists;
use crate::plan::Plan;
use crate::terms::Terms;
use flake_base::Seg;
use frag_value::{Frag, Taker, Value};
use pinned_pool::{Hold, Pool, PoolName, PoolSeat};
use std::snapshot::Snapshot;

// The bytes that were copied from a place on get their segments, and behind them a run that stays gets one.
fn lay<N: PoolName>(
    pool: &Pool<N>,
    lists: &mut Lists<N>,
    run: usize,
    hold: Hold<N>,
    from: u32,
    len: u32,
)
    requires order { run ≤ length lists.old.text.items }
    requires staged { length lists.old.text.items ≤ 512 * length lists.old.staged.items }
    requires room { length lists.old.segments.items + (length lists.old.text.items + 511) / 512 + 1
        ≤ vec_capacity lists.old.segments + run / 512 }
    requires pins { length lists.old.pins.items < vec_capacity lists.old.pins }
    requires offset { from + len ≤ 4096 }
    ensures segments { let since = length lists.old.text.items - run in
        lists.new.segments.items ≡ lists.old.segments.items
        ++ cut (buffer_addresses N.sizes (key_buffers lists.old.staged.items)) since run since
        ++ segment (address_of N.sizes hold.buffer + from) len ∷ [] }
    ensures count { length lists.new.segments.items + run / 512
        ≤ length lists.old.segments.items + (length lists.old.text.items + 511) / 512 + 1 }
    ensures pins { lists.new.pins.items ≡ lists.old.pins.items ++ hold ∷ [] }
    ensures same { (lists.new.text ≡ lists.old.text) × (lists.new.staged.items ≡ lists.old.staged.items) }
    ensures room { (vec_capacity lists.new.segments ≡ vec_capacity lists.old.segments)
        × (vec_capacity lists.new.pins ≡ vec_capacity lists.old.pins) }
{
    lay_run(
        pool,
        &mut lists.segments,
        &lists.staged,
        run,
        lists.text.len(),
    );
    lists.segments.push_reserved(Seg {
        address: pool.address(hold.buffer()) + u64::from(from),
        len,
    });
    lists.pins.push_reserved(hold);
}

// Whether a run of so many bytes stays where it lies.
#[inline(always)]
fn stays(threshold: u32, len: u32) -> bool
    ensures long { result ≡ true → threshold ≤ len }
    ensures short { result ≡ false → len < threshold }
{
    len >= threshold
}

impl<'a, N: PoolName> Plan<'a, N> {
    // A run that is copied.
    #[inline(always)]
    fn copy_part(
        &mut self,
        pool: &Pool<N>,
        owner: &mut PoolSeat<N>,
        frag: &Frag<N>,
        from: u32,
        len: u32,
    )
        requires held { 0 < meant_count frag.now.hold owner.old.holds }
        requires filled { (0 < len) × (from + len ≤ 8 * length (front_of frag.now.hold.buffer owner.old.holds)) }
        requires short { len < self.old.base.threshold }
        requires next { MatchOption self.old.begun ⊥ (λ b. MayComeNext from len b) }
        ensures plan { let run = placed_part N.sizes owner.old.holds frag.now.hold.buffer from len in
            self.new ≡ planned self.old.base self.old.taken (with_run run self.old.begun) }
        ensures owner { owner.new ≡ owner.old }
    {
        let buffer = frag.hold.buffer();
        let step = Step::Took {
            owner: Snapshot::of(owner),
            buffer,
            from,
            len,
        };
        append_run(&mut self.lists.text, pool, owner, buffer, from, len);
        self.history.add(step);
    }

    // A run that is pinned.
    fn pin_part(
        &mut self,
        pool: &Pool<N>,
        owner: &mut PoolSeat<N>,
        frag: &Frag<N>,
        from: u32,
        len: u32,
    )
        requires held { 0 < meant_count frag.now.hold owner.old.holds }
        requires filled { (0 < len) × (from + len ≤ 8 * length (front_of frag.now.hold.buffer owner.old.holds)) }
        requires long { self.old.base.threshold ≤ len }
        requires next { MatchOption self.old.begun ⊥ (λ b. MayComeNext from len b) }
        ensures plan { let run = placed_part N.sizes owner.old.holds frag.now.hold.buffer from len in
            self.new ≡ planned self.old.base self.old.taken (with_run run self.old.begun) }
        ensures owner { MayShare frag.now.hold.buffer owner.old owner.new }
    {
        let buffer = frag.hold.buffer();
        let step = Step::Took {
            owner: Snapshot::of(owner),
            buffer,
            from,
            len,
        };
        let hold = pool.pin(owner, &mut self.seat, &frag.hold);
        self.seat.is_seat();
        self.paid += 1;
        let lists = &mut *self.lists;
        let text = lists.text.len();
        lay(pool, lists, self.run, hold, from, len);
        self.run = text;
        self.history.add(step);
    }

    // A fragment that is copied, and whose hold is given back.
    fn copy_over(&mut self, pool: &Pool<N>, owner: &mut PoolSeat<N>, frag: Frag<N>)
        requires held { 0 < meant_count frag.hold owner.old.holds }
        requires loose { frag.hold.pinned ≡ false }
        requires filled { (0 < frag.len) × (frag.len ≤ 8 * length (front_of frag.hold.buffer owner.old.holds)) }
        requires short { frag.len < self.old.base.threshold }
        requires next { MatchOption self.old.begun ⊥ (λ b. MayComeNext 0 frag.len b) }
        ensures plan { let run = placed_over N.sizes owner.old.holds (frag.hold.buffer, frag.len) in
            self.new ≡ planned self.old.base self.old.taken (with_run run self.old.begun) }
        ensures owner { Loses frag.hold owner.old owner.new }
    {
        let Frag { hold, len } = frag;
        let buffer = hold.buffer();
        let step = Step::TookOver {
            owner: Snapshot::of(owner),
            buffer,
            len,
        };
        append_run(&mut self.lists.text, pool, owner, buffer, 0, len);
        pool.unpin(owner, hold);
        self.history.add(step);
    }

    // A fragment that stays where it lies, and whose hold comes to the plan.
    fn move_over(&mut self, pool: &Pool<N>, owner: &mut PoolSeat<N>, frag: Frag<N>)
        requires held { 0 < meant_count frag.hold owner.old.holds }
        requires loose { frag.hold.pinned ≡ false }
        requires filled { (0 < frag.len) × (frag.len ≤ 8 * length (front_of frag.hold.buffer owner.old.holds)) }
        requires long { self.old.base.threshold ≤ frag.len }
        requires next { MatchOption self.old.begun ⊥ (λ b. MayComeNext 0 frag.len b) }
        ensures plan { let run = placed_over N.sizes owner.old.holds (frag.hold.buffer, frag.len) in
            self.new ≡ planned self.old.base self.old.taken (with_run run self.old.begun) }
        ensures owner { Loses frag.hold owner.old owner.new }
    {
        let Frag { hold, len } = frag;
        let step = Step::TookOver {
            owner: Snapshot::of(owner),
            buffer: hold.buffer(),
            len,
        };
        owner.is_seat();
        pool.fetch(owner, &mut self.seat, &hold);
        self.seat.is_seat();
        let lists = &mut *self.lists;
        let text = lists.text.len();
        lay(pool, lists, self.run, hold, 0, len);
        self.run = text;
        self.history.add(step);
    }
}

impl<'a, N: PoolName> Taker<N> for Plan<'a, N> {
    ghost use Rattle.reply_planner.specs.Planned.{room_of, range_room_of};

    type Base = Terms;

    ghost taken = { λ p. p.taken };

    ghost begun = { λ p. p.begun };

    ghost base = { λ p. p.base };

    ghost room = { λ p. room_of p };

    ghost range_room = { λ p. range_room_of p };

    #[inline(always)]
    fn begin(&mut self, len: u64) {
        append_head(&mut self.lists.text, len);
        self.history.add(Step::Began { len });
    }

    fn begin_part(&mut self, len: u64) {
        append_head(&mut self.lists.text, len);
        self.history.add(Step::BeganPart { len });
    }

    #[inline(always)]
    fn take_part(
        &mut self,
        pool: &Pool<N>,
        owner: &mut PoolSeat<N>,
        frag: &Frag<N>,
        from: u32,
        len: u32,
    ) {
        if stays(self.threshold, len) {
            self.pin_part(pool, owner, frag, from, len);
        } else {
            self.copy_part(pool, owner, frag, from, len);
        }
    }

    fn take_over(&mut self, pool: &Pool<N>, owner: &mut PoolSeat<N>, value: &mut Value<N>) {
        if let Some(frag) = value.next_frag() {
            if stays(self.threshold, frag.len) {
                self.move_over(pool, owner, frag);
            } else {
                self.copy_over(pool, owner, frag);
            }
        }
    }

    fn finish(&mut self) {
        append_end(&mut self.lists.text);
        self.history.add(Step::Finished);
    }
}
