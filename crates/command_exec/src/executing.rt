ghost use Rattle.std.specs.Prelude.{◌≡◌, ◌+◌, ◌≤◌, length, IfOk, OnOk, OnErr};
ghost use Rattle.frag_value.specs.Fragments.{frags_limit};
ghost use Rattle.reply_layout.specs.Need.{need_of};
ghost use Rattle.command_exec.specs.Executed.{Executes, FallsShort};

use crate::answering::answer;
use crate::pass::Pass;
use crate::shop::Shop;
use command_parts::Command;
use flake_base::{Entry, Memory, Segs};
use order_book::BookName;
use pinned_pool::PoolName;
use reply_planner::{Need, Parcel, Plan};
use std::sync::Wait;

/// Why a call is not executed.
#[derive(Clone, Copy, PartialEq, Eq, Debug)]
pub enum ExecError {
    Memory,
}

/// Runs the parts of a command in order, and makes one reply of what they answered. What they stored is added to
/// `stored`, and takes no more of its room; where memory was wanting it has what it had.
pub fn execute<R: Wait, N: BookName, P: PoolName>(
    rt: &R,
    shop: &Shop<'_, N, P>,
    pass: &mut Pass<N, P>,
    session: u16,
    call: u32,
    command: &Command,
    stored: &mut Segs,
) -> Result<Parcel<P>, ExecError>
    requires stage { (need_of command.now).stage ≤ length pass.old.free }
    requires credits { (need_of command.now).descriptors + 5 ≤ pass.old.seat.credits }
    requires spare { frags_limit ≤ stored.old.spare }
    requires session { session ≡ pass.old.list.number }
    ensures reply { IfOk result (λ parcel. Executes P.sizes N.sizes.shards command.now call pass.old pass.new parcel
        stored.old.items stored.new.items) }
    ensures memory { OnErr result (FallsShort P.sizes N.sizes.shards command.now call pass.old pass.new) }
    ensures untold { OnErr result (stored.new.items ≡ stored.old.items) }
    ensures spare { OnOk result
        (stored.old.spare + length stored.old.items ≤ stored.new.spare + length stored.new.items) }
{
    execute_needing(
        rt,
        shop,
        pass,
        session,
        call,
        command,
        command.need(),
        stored,
    )
}

/// The same, told what the command needs.
pub fn execute_needing<R: Wait, N: BookName, P: PoolName>(
    rt: &R,
    shop: &Shop<'_, N, P>,
    pass: &mut Pass<N, P>,
    session: u16,
    call: u32,
    command: &Command,
    need: Need,
    stored: &mut Segs,
) -> Result<Parcel<P>, ExecError>
    requires need { need ≡ need_of command.now }
    requires stage { (need_of command.now).stage ≤ length pass.old.free }
    requires credits { (need_of command.now).descriptors + 5 ≤ pass.old.seat.credits }
    requires spare { frags_limit ≤ stored.old.spare }
    requires session { session ≡ pass.old.list.number }
    ensures reply { IfOk result (λ parcel. Executes P.sizes N.sizes.shards command.now call pass.old pass.new parcel
        stored.old.items stored.new.items) }
    ensures memory { OnErr result (FallsShort P.sizes N.sizes.shards command.now call pass.old pass.new) }
    ensures untold { OnErr result (stored.new.items ≡ stored.old.items) }
    ensures spare { OnOk result
        (stored.old.spare + length stored.old.items ≤ stored.new.spare + length stored.new.items) }
{
    let _ = pass.stage.free();
    let Ok(mut plan) = Plan::start(
        shop.pool,
        &mut pass.seat,
        &mut pass.stage,
        need,
        pass.threshold,
    ) else {
        return Err(ExecError::Memory);
    };
    let at = Entry {
        session,
        call,
        part: 0,
    };
    match answer(rt, shop, pass, at, command, &mut plan, stored) {
        Ok(()) => Ok(plan.seal(&mut pass.seat, &mut pass.stage, call)),
        Err(Memory) => {
            plan.cancel(&mut pass.seat, &mut pass.stage);
            Err(ExecError::Memory)
        }
    }
}
