// Calls.
ghost use Rattle.std.specs.Prelude.{◌≡◌, ◌-◌, ◌^◌, ◌<◌, true, length, Err, IfOk, IfErr, OnErr};
ghost use Rattle.reply_layout.specs.Need.{need_of};
ghost use Rattle.session_pass.specs.Calls.{CallPosts, PostsOne, CallRefused};
ghost use Rattle.session_pass.specs.Refused.{TellsNothing, WhyCallRefused};
ghost use Rattle.session_pass.specs.Waiting.{waiting, FitsBeside};

use crate::error::CallError;
use crate::run::{run, run_untold};
use crate::session::Session;
use command_exec::{ExecError, Shop};
use command_parts::Command;
use flake_base::{Entry, Seg};
use order_book::BookName;
use pinned_pool::PoolName;
use reply_planner::Need;
use std::sync::Wait;

/// A call whose reply was posted.
#[derive(Clone, Copy, PartialEq, Eq, Debug)]
pub struct Posted {
    /// Its number.
    pub call: u32,
    /// How many replies were given back before.
    pub reaped: u32,
}

impl<N: BookName, P: PoolName + Send> Session<N, P> {
    /// Runs a command's parts, and posts the reply. As long as ring or stage has less than the command can need it
    /// gives the oldest reply back. `sent` becomes the reply's segments, `stored` the fragments of the values that
    /// were stored.
    pub fn call<R: Wait>(
        &mut self,
        rt: &R,
        shop: &Shop<'_, N, P>,
        command: &Command,
        sent: &mut Vec<Seg>,
        stored: &mut Vec<Seg>,
    ) -> Result<Posted, CallError>
        requires few { length self.old.posted < 2 ^ 32 - 1 }
        ensures posted { IfOk result (λ posted. CallPosts P.sizes N.sizes.shards command.now self.old self.new
            posted.call posted.reaped sent.new.items stored.new.items) }
        ensures refused { IfErr result (λ error.
            WhyCallRefused P.sizes N.sizes.shards command.now self.old self.new error) }
        ensures sent { IfErr result (λ error. TellsNothing error sent.old.items sent.new.items) }
        ensures stored { IfErr result (λ error. TellsNothing error stored.old.items stored.new.items) }
        ensures stopped { self.old.stopped ≡ true → (result ≡ Err CallError.Memory) × (self.new ≡ self.old) }
    {
        if self.stopped {
            return Err(CallError::Memory);
        }
        let (reaped, need) = self.make_room(shop, command)?;
        match self.post(rt, shop, command, need, sent, stored) {
            Ok(call) => Ok(Posted { call, reaped }),
            Err(ExecError::Memory) => Err(CallError::Memory),
        }
    }

    /// The same where nobody asks for the segments.
    #[inline(always)]
    pub fn call_untold<R: Wait>(
        &mut self,
        rt: &R,
        shop: &Shop<'_, N, P>,
        command: &Command,
    ) -> Result<Posted, CallError>
        requires few { length self.old.posted < 2 ^ 32 - 1 }
        ensures posted { IfOk result (λ posted. PostsOne P.sizes N.sizes.shards command.now self.old self.new
            posted.call posted.reaped) }
        ensures refused { IfErr result (λ error.
            WhyCallRefused P.sizes N.sizes.shards command.now self.old self.new error) }
        ensures stopped { self.old.stopped ≡ true → (result ≡ Err CallError.Memory) × (self.new ≡ self.old) }
    {
        if self.stopped {
            return Err(CallError::Memory);
        }
        let (reaped, need) = self.make_room(shop, command)?;
        match self.post_untold(rt, shop, command, need) {
            Ok(call) => Ok(Posted { call, reaped }),
            Err(ExecError::Memory) => Err(CallError::Memory),
        }
    }

    // A call where ring and stage have what is needed. The answer is its number.
    #[inline(always)]
    fn post_untold<R: Wait>(
        &mut self,
        rt: &R,
        shop: &Shop<'_, N, P>,
        command: &Command,
        need: Need,
    ) -> Result<u32, ExecError>
        requires few { length self.old.posted < 2 ^ 32 - 1 }
        requires need { need ≡ need_of command.now }
        requires fits { FitsBeside self.old.ring self.old.pass.stage (waiting self.old 0) (need_of command.now) }
        ensures posted { IfOk result
            (λ call. PostsOne P.sizes N.sizes.shards command.now self.old self.new call 0) }
        ensures refused { OnErr result (CallRefused P.sizes N.sizes.shards command.now self.old self.new) }
    {
        self.pass.is_pass();
        let call = self.calls;
        let at = Entry {
            session: self.number,
            call,
            part: 0,
        };
        match run_untold(rt, shop, &mut self.pass, &mut self.ready, at, command, need) {
            Ok(parcel) => {
                parcel.is_parcel();
                self.calls += 1;
                match self.driver.post(parcel) {
                    Ok(()) => Ok(call),
                    Err(_) => unreachable!(),
                }
            }
            Err(error) => {
                self.stopped = true;
                Err(error)
            }
        }
    }

    // The same, told.
    fn post<R: Wait>(
        &mut self,
        rt: &R,
        shop: &Shop<'_, N, P>,
        command: &Command,
        need: Need,
        sent: &mut Vec<Seg>,
        stored: &mut Vec<Seg>,
    ) -> Result<u32, ExecError>
        requires few { length self.old.posted < 2 ^ 32 - 1 }
        requires need { need ≡ need_of command.now }
        requires fits { FitsBeside self.old.ring self.old.pass.stage (waiting self.old 0) (need_of command.now) }
        ensures posted { IfOk result (λ call. CallPosts P.sizes N.sizes.shards command.now self.old self.new call 0
            sent.new.items stored.new.items) }
        ensures refused { OnErr result (CallRefused P.sizes N.sizes.shards command.now self.old self.new) }
    {
        self.pass.is_pass();
        let call = self.calls;
        let at = Entry {
            session: self.number,
            call,
            part: 0,
        };
        match run(
            rt,
            shop,
            &mut self.pass,
            &mut self.ready,
            at,
            command,
            need,
            sent,
            stored,
        ) {
            Ok(parcel) => {
                parcel.is_parcel();
                self.calls += 1;
                match self.driver.post(parcel) {
                    Ok(()) => Ok(call),
                    Err(_) => unreachable!(),
                }
            }
            Err(error) => {
                self.stopped = true;
                Err(error)
            }
        }
    }
}
