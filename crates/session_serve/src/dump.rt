// A dump that a session takes for all.
ghost use Rattle.std.specs.Prelude.{◌≡◌, Option, None, length};
ghost use Rattle.order_book.specs.Pages.{SessionList};
ghost use Rattle.session_serve.specs.Dumps.{CanTake, DumpCame, IsInTime, IsSeeing, MayCall, Stands};
ghost use Rattle.session_serve.specs.declared.dump.DumpPlan.{DumpPlan as Asked};

use command_exec::Shop;
use flake_base::Memory;
use order_book::BookName;
use pinned_pool::{PoolName, PoolSeat};
use session_pass::{Dump, Session};
use std::alloc::Global;
use std::sync::Wait;

/// What a session is asked to dump all shards with.
#[derive(Drop)]
pub struct DumpPlan<P: PoolName> {
    /// The dump stands before this call of the session, or behind its last.
    pub before: u32,
    /// Its holds keep the values.
    pub seat: PoolSeat<P>,
}

/// A dump that was taken; or the seat, where memory was wanting.
pub type DumpTaken<P> = Result<Dump<P>, PoolSeat<P>>;

/// A session's dump: what it was asked for, until it was tried, and what came of it then.
#[derive(Drop)]
pub struct DumpTurn<P: PoolName> {
    pub(crate) alloc: Global,
    pub plan: Option<DumpPlan<P>>,
    pub taken: Option<DumpTaken<P>>,
}

impl<P: PoolName + Send> DumpTurn<P> {
    /// Of a session that was asked for none, or for this one.
    pub fn new(alloc: Global, plan: Option<DumpPlan<P>>) -> Self
        ensures plan { result.plan ≡ plan }
        ensures taken { result.taken ≡ None }
    {
        DumpTurn {
            alloc,
            plan,
            taken: None,
        }
    }

    /// Takes the dump, if the next call is the one that it stands before.
    #[inline(always)]
    pub(crate) fn take_before_call<R: Wait, N: BookName>(
        &mut self,
        rt: &R,
        shop: &Shop<'_, N, P>,
        session: &mut Session<N, P>,
    )
        requires plan { CanTake P.sizes N.sizes.shards self.old.plan }
        ensures session { IsSeeing session.old session.new }
        ensures plan { CanTake P.sizes N.sizes.shards self.new.plan }
        ensures stands { (asked : Option (Asked P)) (first : SessionList)
            → Stands N.sizes.shards asked self.old.plan self.old.taken first session.old.pass.list
            → Stands N.sizes.shards asked self.new.plan self.new.taken first session.new.pass.list }
        ensures in_time { (asked : Option (Asked P)) (first : SessionList)
            → Stands N.sizes.shards asked self.old.plan self.old.taken first session.old.pass.list
            → IsInTime asked self.old.plan (length session.old.posted)
            → MayCall asked self.new.plan (length session.new.posted) }
    {
        if let Some(plan) = &self.plan {
            if plan.before == session.calls() {
                self.take(rt, shop, session);
            }
        }
    }

    /// Takes the dump, if it wasn't tried.
    #[inline(never)]
    pub(crate) fn take<R: Wait, N: BookName>(
        &mut self,
        rt: &R,
        shop: &Shop<'_, N, P>,
        session: &mut Session<N, P>,
    )
        requires plan { CanTake P.sizes N.sizes.shards self.old.plan }
        ensures session { IsSeeing session.old session.new }
        ensures tried { self.new.plan ≡ None }
        ensures came { (asked : Option (Asked P)) (first : SessionList)
            → Stands N.sizes.shards asked self.old.plan self.old.taken first session.old.pass.list
            → DumpCame N.sizes.shards asked self.new.taken first session.new.pass.list }
    {
        let Some(plan) = self.plan.take() else {
            return;
        };
        let DumpPlan { before: _, seat } = plan;
        match session.take_dump(rt, self.alloc, shop, seat) {
            Ok(dump) => self.taken = Some(Ok(dump)),
            Err((Memory, seat)) => self.taken = Some(Err(seat)),
        }
    }
}
