ghost use Rattle.std.specs.Prelude.{◌≡◌, ◌+◌, ◌<◌, ◌≤◌, length, IfOk, IfErr};
ghost use Rattle.pin_core.specs.declared.class.Class.TheVariants.{Small};
ghost use Rattle.pinned_pool.specs.Classes.{just};
ghost use Rattle.pinned_pool.specs.Named.{IsSeat};
ghost use Rattle.pinned_pool.specs.Sought.{Sought};
ghost use Rattle.reply_planner.specs.Parcels.{TakesBack};
ghost use Rattle.reply_planner.specs.Stages.{stage_size, merged, IsStageOpened, WhyUnopened, IsClosed};
ghost use Rattle.reply_planner.specs.Stages.{NoneInBoth, IsReordered};
ghost use Rattle.command_exec.specs.Passes.{IsPass, pass_of, none_found};

use order_book::{BookName, SessionSeat};
use pinned_pool::{ClaimStart, Pool, PoolName, PoolSeat};
use reply_planner::{OpenError, Parcel, Stage, give_back};
use std::alloc::Global;
use std::marker::Model;
use std::snapshot::Snapshot;

/// What a session takes to its calls: its seat of the pool, its list of deeds, and its staging buffers.
#[derive(Drop)]
pub struct Pass<N: BookName, P: PoolName> {
    pub(crate) seat: PoolSeat<P>,
    pub(crate) mine: SessionSeat<N>,
    pub(crate) stage: Stage<P>,
    // The stage as it was opened.
    opened: Snapshot<Stage<P>>,
    pub(crate) threshold: u32,
    pub(crate) start: ClaimStart,
}

impl<N: BookName, P: PoolName> Model for Pass<N, P> {
    ghost use Rattle.command_exec.specs.Passes.{PassView, IsPass, pass_of};

    ghost Value = { PassView };

    ghost view = { λ p. pass_of p.mine p.seat p.opened.value p.stage p.threshold };

    ghost invariant = { λ p. IsPass P.sizes (pass_of p.mine p.seat p.opened.value p.stage p.threshold) };
}

impl<N: BookName, P: PoolName> Pass<N, P> {
    ghost use Rattle.std.specs.Borrow.{sem};
    ghost use Rattle.command_exec.specs.Lending.{lends_list};

    /// Opens a stage. A run of a stored fragment that has at least `threshold` bytes will stay where it lies.
    pub fn open(
        alloc: Global,
        pool: &Pool<P>,
        seat: PoolSeat<P>,
        mine: SessionSeat<N>,
        threshold: u32,
    ) -> Result<Pass<N, P>, (OpenError, PoolSeat<P>, SessionSeat<N>)>
        requires threshold { (0 < threshold) × (threshold ≤ 512) }
        ensures pass { IfOk result (λ p. p ≡ pass_of mine p.seat p.stage p.stage threshold) }
        ensures opened { IfOk result (λ p. IsStageOpened P.sizes p.stage seat p.seat) }
        ensures sought { IfOk result (λ p. Sought P.sizes (just Small stage_size) 0 seat p.seat) }
        ensures refused { IfErr result (λ e. WhyUnopened P.sizes e.0 seat e.1) }
        ensures refused_sought { IfErr result (λ e.
            Sought P.sizes (just Small stage_size) (none_found e.0) seat e.1) }
        ensures mine { IfErr result (λ e. e.2 ≡ mine) }
    {
        let mut seat = seat;
        match Stage::open(alloc, pool, &mut seat) {
            Ok(stage) => {
                let opened = Snapshot::of(&stage);
                Ok(Pass {
                    seat,
                    mine,
                    stage,
                    opened,
                    threshold,
                    start: ClaimStart::FIRST,
                })
            }
            Err(error) => Err((error, seat, mine)),
        }
    }

    /// What its calls store is claimed from here on.
    pub fn claiming_from(self, start: ClaimStart) -> Self
        ensures { result ≡ self }
    {
        let mut pass = self;
        pass.start = start;
        pass
    }

    /// How many of its staging buffers are free.
    pub fn free(&self) -> u32
        ensures { result ≡ length self.now.free }
    {
        self.stage.free()
    }

    /// The session's number in the book.
    pub fn session(&self) -> u16
        ensures { result ≡ self.now.list.number }
    {
        self.mine.session()
    }

    /// The session's seat of the book. The pass will have the list that is left there, and all else of it stays.
    pub fn mine(&mut self) -> &mut SessionSeat<N>
        ensures* writes_back { sem 𝓛 (lends_list N.row P.row N.BookName P.PoolName self.entry result) }
        ensures list { result.now ≡ self.old.list }
    {
        &mut self.mine
    }

    /// Does nothing, and tells a proof what is true of every pass.
    pub fn is_pass(&self)
        ensures pass { IsPass P.sizes self.now }
        ensures seat { IsSeat P.sizes self.now.seat }
    {
        self.seat.is_seat();
    }

    /// Takes a reply back, when it was sent. The answer is how many of its holds were the last of their buffers.
    #[inline(always)]
    pub fn give_back(&mut self, pool: &Pool<P>, parcel: Parcel<P>) -> u64
        requires { length self.old.free + length parcel.staged ≤ stage_size }
        ensures pass { self.new ≡ pass_of self.old.list self.new.seat self.old.stage
            (merged parcel.staged self.old.free) self.old.threshold }
        ensures seat { TakesBack parcel result self.old.seat self.new.seat }
    {
        give_back(parcel, pool, &mut self.seat, &mut self.stage)
    }

    /// Changes nothing but the order of the seat's holds, and tells a proof that the free buffers of two stages are
    /// apart.
    pub fn compare(&mut self, pool: &Pool<P>, other: &mut Pass<N, P>)
        requires credits { 1 < self.old.seat.credits }
        ensures pass { self.new ≡ pass_of self.old.list self.new.seat self.old.stage self.old.free self.old.threshold }
        ensures seat { IsReordered self.old.seat self.new.seat }
        ensures other { other.new ≡ other.old }
        ensures apart { NoneInBoth self.old.free other.old.free }
    {
        self.stage.compare(pool, &mut self.seat, &mut other.seat);
    }

    /// Gives the staging buffers back.
    pub fn close(self, pool: &Pool<P>) -> (PoolSeat<P>, SessionSeat<N>)
        requires { length self.free ≡ stage_size }
        ensures seat { IsClosed self.free self.seat result.0 }
        ensures mine { result.1 ≡ self.list }
    {
        let Pass {
            mut seat,
            mine,
            stage,
            opened: _,
            threshold: _,
            start: _,
        } = self;
        stage.close(pool, &mut seat);
        (seat, mine)
    }
}
