// A dump of all shards, between two calls.
ghost use Rattle.std.specs.Prelude.{◌≡◌, ◌+◌, ◌*◌, ◌≤◌, [], IfOk, IfErr};
ghost use Rattle.pin_core.specs.Buffers.{buffers};
ghost use Rattle.pin_dump.specs.Dumps.{TookDump, HasTakenHolds, IsSameSeat, KeepsDeeds};

use crate::session::Session;
use command_exec::Shop;
use flake_base::Memory;
use order_book::BookName;
use pin_dump::Dump;
use pinned_pool::{PoolName, PoolSeat};
use std::alloc::Global;
use std::sync::Wait;

impl<N: BookName, P: PoolName + Send> Session<N, P> {
    /// Takes each shard, in ascending order, at one point of its history; the values are kept by holds of `seat`. After
    /// want of memory the seat comes back without holds. Only what the session has seen of the shards grows.
    pub fn take_dump<R: Wait>(
        &mut self,
        rt: &R,
        alloc: Global,
        shop: &Shop<'_, N, P>,
        seat: PoolSeat<P>,
    ) -> Result<Dump<P>, (Memory, PoolSeat<P>)>
        requires holds { seat.holds ≡ [] }
        requires credits { N.sizes.shards * buffers P.sizes + 4 ≤ seat.credits }
        ensures taken { IfOk result (λ d.
            TookDump N.sizes.shards self.old.pass.list self.new.pass.list d.points d.text) }
        ensures kept { IfOk result (λ d. HasTakenHolds seat d.seat) }
        ensures unspent { IfOk result (λ d. (d.seat.returns ≡ seat.returns) × (d.seat.lasts ≡ seat.lasts)) }
        ensures refused { IfErr result (λ e. IsSameSeat seat e.1) }
        ensures deeds { KeepsDeeds self.old.pass.list self.new.pass.list }
        ensures rest { self.new
            ≡ record self.old { pass = record self.old.pass { list = self.new.pass.list } } }
    {
        Dump::take(
            rt,
            alloc,
            shop.pool,
            shop.book,
            shop.store,
            seat,
            self.pass.mine(),
        )
    }
}
