// Replies that were sent are given back.
ghost use Rattle.std.specs.Prelude.{IfSome, IfNone};
ghost use Rattle.session_pass.specs.Calls.{ReapsOne, ReapsNone};

use crate::session::Session;
use command_exec::Shop;
use order_book::BookName;
use pinned_pool::PoolName;

/// A reply that was given back.
#[derive(Clone, Copy, PartialEq, Eq, Debug)]
pub struct Reaped {
    /// The number of its call.
    pub call: u32,
    /// How many of its holds were the last of their buffers.
    pub recycled: u64,
}

impl<N: BookName, P: PoolName + Send> Session<N, P> {
    /// Gives the oldest reply back, if it was sent.
    #[inline(always)]
    pub fn reap_one(&mut self, shop: &Shop<'_, N, P>) -> Option<Reaped>
        ensures one { IfSome result (λ reaped. ReapsOne self.old self.new reaped.call reaped.recycled) }
        ensures none { IfNone result (ReapsNone self.old self.new) }
    {
        self.pass.is_pass();
        let Some(parcel) = self.driver.reap() else {
            return None;
        };
        let call = parcel.call();
        let recycled = self.pass.give_back(shop.pool, parcel);
        Some(Reaped { call, recycled })
    }
}
