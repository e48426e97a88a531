// Room for the next reply.
ghost use Rattle.std.specs.Prelude.{◌≡◌, length, IfOk, IfErr};
ghost use Rattle.reply_layout.specs.Need.{need, need_of};
ghost use Rattle.session_pass.specs.Waiting.{waiting, room_left, free_of};
ghost use Rattle.session_pass.specs.Refused.{MakesRoom, WhyCallRefused, full_error};

use crate::error::CallError;
use crate::session::Session;
use command_exec::Shop;
use command_parts::Command;
use order_book::BookName;
use pinned_pool::PoolName;
use reply_planner::Need;

impl<N: BookName, P: PoolName + Send> Session<N, P> {
    // What is free of ring and stage.
    fn left(&self) -> Need
        ensures { result ≡ need (room_left self.now.ring (waiting self.now 0))
            (length (free_of self.now.pass.stage (waiting self.now 0))) }
    {
        Need {
            descriptors: self.driver.room(),
            stage: self.pass.free(),
        }
    }

    /// Gives the oldest replies back, as long as a command's need isn't there. The answer is how many, and the need.
    #[inline(always)]
    pub(crate) fn make_room(
        &mut self,
        shop: &Shop<'_, N, P>,
        command: &Command,
    ) -> Result<(u32, Need), CallError>
        ensures room { IfOk result (λ made. MakesRoom command.now made.0 self.old self.new) }
        ensures need { IfOk result (λ made. made.1 ≡ need_of command.now) }
        ensures full { IfErr result (λ error.
            WhyCallRefused P.sizes N.sizes.shards command.now self.old self.new error) }
    {
        let need = command.need();
        let mut freed = 0;
        'reaps: loop {
            self.is_session();
            let left = self.left();
            if need.descriptors <= left.descriptors && need.stage <= left.stage {
                return Ok((freed, need));
            }
            let Some(_) = self.reap_one(shop) else {
                return Err(full(need, left));
            };
            freed += 1;
        }
    }
}

// Which of ring and stage has less than is needed.
fn full(need: Need, left: Need) -> CallError
    ensures { result ≡ full_error need left }
{
    if left.descriptors < need.descriptors {
        CallError::RingFull {
            need: need.descriptors,
            room: left.descriptors,
        }
    } else {
        CallError::StageFull {
            need: need.stage,
            free: left.stage,
        }
    }
}
