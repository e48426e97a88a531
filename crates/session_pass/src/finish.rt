// The end of a session.
ghost use Rattle.std.specs.Prelude.{◌≡◌, ◌+◌, length};
ghost use Rattle.session_pass.specs.Ends.{Finishes};

use crate::session::Session;
use command_exec::Shop;
use order_book::{BookName, SessionSeat};
use pinned_pool::{PoolName, PoolSeat};
use reply_planner::Parcel;
use tx_descriptor::Framed;
use tx_ring::ClosedDriver;

/// How a session ends, or that a reply isn't sent yet.
#[derive(Drop)]
pub enum Finish<N: BookName, P: PoolName + Send>
where
    Parcel<P>: Framed,
{
    Done {
        seat: PoolSeat<P>,
        mine: SessionSeat<N>,
        closed: ClosedDriver<Parcel<P>>,
    },
    NotYet(Session<N, P>),
}

impl<N: BookName, P: PoolName + Send> Session<N, P> {
    /// Gives all replies back and closes ring and pass, unless one isn't sent yet.
    pub fn finish(self, shop: &Shop<'_, N, P>) -> Finish<N, P>
        ensures { Finishes self result }
    {
        let mut session = self;
        'reaps: while session.pending() > 0 {
            let Some(_) = session.reap_one(shop) else {
                return Finish::NotYet(session);
            };
        }
        session.close(shop)
    }

    // How many replies wait.
    fn pending(&self) -> usize
        ensures { length self.now.posted ≡ length self.now.reaped + result }
    {
        self.driver.pending()
    }

    // Closes ring and pass, where none waits.
    fn close(self, shop: &Shop<'_, N, P>) -> Finish<N, P>
        requires { length self.posted ≡ length self.reaped }
        ensures { Finishes self result }
    {
        let Session {
            number: _,
            pass,
            opened: _,
            driver,
            ready: _,
            calls: _,
            stopped: _,
        } = self;
        pass.is_pass();
        match driver.close() {
            Ok(closed) => {
                let (seat, mine) = pass.close(shop.pool);
                Finish::Done { seat, mine, closed }
            }
            Err(_) => unreachable!(),
        }
    }
}
