// A command's parts, run over a pass.
ghost use Rattle.std.specs.Prelude.{◌≡◌, ◌+◌, ◌≤◌, [], length, vec_capacity, IfOk, OnErr};
ghost use Rattle.reply_layout.specs.Need.{need_of};
ghost use Rattle.command_exec.specs.Executed.{FallsShort};
ghost use Rattle.session_pass.specs.Running.{RunsCommand, RunsUntold};

use crate::ready::Ready;
use command_exec::{ExecError, Pass, Shop, execute_needing};
use command_parts::Command;
use flake_base::{Entry, Seg, Segs};
use order_book::BookName;
use pinned_pool::PoolName;
use reply_planner::{Need, Parcel};
use std::sync::Wait;

/// Runs a command's parts. Memory is taken only where the list of the reply's segments has too little room, or where no
/// list is ready for what is stored.
pub(crate) fn run<R: Wait, N: BookName, P: PoolName>(
    rt: &R,
    shop: &Shop<'_, N, P>,
    pass: &mut Pass<N, P>,
    ready: &mut Ready,
    at: Entry,
    command: &Command,
    need: Need,
    sent: &mut Vec<Seg>,
    stored: &mut Vec<Seg>,
) -> Result<Parcel<P>, ExecError>
    requires stage { (need_of command.now).stage ≤ length pass.old.free }
    requires credits { (need_of command.now).descriptors + 5 ≤ pass.old.seat.credits }
    requires session { at.session ≡ pass.old.list.number }
    requires need { need ≡ need_of command.now }
    ensures reply { IfOk result (λ parcel. RunsCommand P.sizes N.sizes.shards command.now at.call pass.old pass.new
        parcel sent.new.items stored.new.items) }
    ensures memory { OnErr result (FallsShort P.sizes N.sizes.shards command.now at.call pass.old pass.new) }
{
    sent.clear();
    if sent.reserve(need.descriptors as usize).is_err() {
        return Err(ExecError::Memory);
    }
    let (parcel, fragments) = run_parts(rt, shop, pass, ready, at, command, need)?;
    ready.hand_out(fragments, stored);
    tell(&parcel, sent);
    Ok(parcel)
}

/// The same where nobody asks for the segments. Memory is taken only where no list is ready.
pub(crate) fn run_untold<R: Wait, N: BookName, P: PoolName>(
    rt: &R,
    shop: &Shop<'_, N, P>,
    pass: &mut Pass<N, P>,
    ready: &mut Ready,
    at: Entry,
    command: &Command,
    need: Need,
) -> Result<Parcel<P>, ExecError>
    requires need { need ≡ need_of command.now }
    requires stage { (need_of command.now).stage ≤ length pass.old.free }
    requires credits { (need_of command.now).descriptors + 5 ≤ pass.old.seat.credits }
    requires session { at.session ≡ pass.old.list.number }
    ensures reply { IfOk result (λ parcel.
        RunsUntold P.sizes N.sizes.shards command.now at.call pass.old pass.new parcel) }
    ensures memory { OnErr result (FallsShort P.sizes N.sizes.shards command.now at.call pass.old pass.new) }
{
    let Ok(mut fragments) = ready.take() else {
        return Err(ExecError::Memory);
    };
    let parcel = execute_needing(
        rt,
        shop,
        pass,
        at.session,
        at.call,
        command,
        need,
        &mut fragments,
    )?;
    ready.keep(fragments);
    Ok(parcel)
}

// The parcel, and the fragments that were stored.
fn run_parts<R: Wait, N: BookName, P: PoolName>(
    rt: &R,
    shop: &Shop<'_, N, P>,
    pass: &mut Pass<N, P>,
    ready: &mut Ready,
    at: Entry,
    command: &Command,
    need: Need,
) -> Result<(Parcel<P>, Segs), ExecError>
    requires need { need ≡ need_of command.now }
    requires stage { (need_of command.now).stage ≤ length pass.old.free }
    requires credits { (need_of command.now).descriptors + 5 ≤ pass.old.seat.credits }
    requires session { at.session ≡ pass.old.list.number }
    ensures reply { IfOk result (λ r. RunsCommand P.sizes N.sizes.shards command.now at.call pass.old pass.new r.0
        r.0.segments r.1.items) }
    ensures left { IfOk result (λ r. ready.new.left ≤ r.1.spare + length r.1.items) }
    ensures memory { OnErr result (FallsShort P.sizes N.sizes.shards command.now at.call pass.old pass.new) }
{
    let Ok(mut fragments) = ready.take() else {
        return Err(ExecError::Memory);
    };
    let parcel = execute_needing(
        rt,
        shop,
        pass,
        at.session,
        at.call,
        command,
        need,
        &mut fragments,
    )?;
    Ok((parcel, fragments))
}

// Puts a reply's segments into an empty list.
fn tell<P: PoolName>(parcel: &Parcel<P>, sent: &mut Vec<Seg>)
    requires none { sent.old.items ≡ [] }
    requires room { length parcel.now.segments ≤ vec_capacity sent.old }
    ensures { sent.new.items ≡ parcel.now.segments }
{
    for i in 0..parcel.count() {
        sent.push_reserved(parcel.seg(i));
    }
}
