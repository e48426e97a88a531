//! Commands by how they are answered.
ghost use Rattle.std.specs.Prelude.{◌≡◌, ◌+◌, ◌<◌, ◌≤◌, [], None, length, IfOk, OnOk, OnErr};
ghost use Rattle.flake_model.specs.Command.{parts};
ghost use Rattle.frag_value.specs.Fragments.{frags_limit};
ghost use Rattle.reply_layout.specs.Need.{need_of};
ghost use Rattle.reply_layout.specs.Pieces.{pieces_of};
ghost use Rattle.reply_planner.specs.Laid.{pieces_in};
ghost use Rattle.reply_planner.specs.Planned.{room_of};
ghost use Rattle.shard_core.specs.Outcomes.{entry_at};
ghost use Rattle.command_exec.specs.Alike.{Alike};
ghost use Rattle.command_exec.specs.Kinds.{HasNoParts, HasOnePart, AsksValues, Counts, part_at};
ghost use Rattle.command_exec.specs.Parted.{AddsValue, CountsKey, MissesPart};
ghost use Rattle.command_exec.specs.Running.{IsStarted, HasReply, LacksMemory};

use crate::lines::{NULL, copy_answer, copy_bulk, copy_error, copy_line};
use crate::parts::run_part;
use crate::pass::Pass;
use crate::shop::Shop;
use command_parts::{Command, Op};
use flake_base::{Entry, Memory, Segs};
use order_book::BookName;
use pinned_pool::PoolName;
use reply_planner::Plan;
use shard_store::PartAnswer;
use std::sync::Wait;

/// Runs a command's parts in order, and puts its reply into a plan. The entry is that of the first part.
pub(crate) fn answer<R: Wait, N: BookName, P: PoolName>(
    rt: &R,
    shop: &Shop<'_, N, P>,
    pass: &mut Pass<N, P>,
    at: Entry,
    command: &Command,
    plan: &mut Plan<'_, P>,
    stored: &mut Segs,
) -> Result<(), Memory>
    requires session { (at.session ≡ pass.old.list.number) × (at.part ≡ 0) }
    requires credits { 1 < pass.old.seat.credits }
    requires spare { frags_limit ≤ stored.old.spare }
    requires started { IsStarted (need_of command.now) plan.old }
    ensures reply { OnOk result (HasReply P.sizes N.sizes.shards at.call command.now pass.old pass.new
        stored.old.items stored.new.items plan.new) }
    ensures stopped { OnErr result (LacksMemory P.sizes N.sizes.shards at.call command.now pass.old pass.new) }
    ensures untold { OnErr result (stored.new.items ≡ stored.old.items) }
    ensures base { plan.new.base ≡ plan.old.base }
    ensures spare { OnOk result
        (stored.old.spare + length stored.old.items ≤ stored.new.spare + length stored.new.items) }
{
    match command.op() {
        Op::Ping | Op::PingWith | Op::Fault(_) => {
            answer_at_once(plan, command);
            Ok(())
        }
        Op::One(_) => answer_one(rt, shop, pass, at, command, plan, stored),
        Op::MGet => answer_values(rt, shop, pass, at, command, plan, stored),
        Op::Del | Op::Exists => answer_count(rt, shop, pass, at, command, plan, stored),
    }
}

// A command without parts.
fn answer_at_once<P: PoolName>(plan: &mut Plan<'_, P>, command: &Command)
    requires kind { HasNoParts command.now }
    requires started { IsStarted (need_of command.now) plan.old }
    ensures kind { HasNoParts command.now }
    ensures pieces { Alike plan.old.base.threshold (pieces_in plan.new.taken) (pieces_of command.now []) }
    ensures begun { plan.new.begun ≡ None }
    ensures base { plan.new.base ≡ plan.old.base }
{
    match command.op() {
        Op::PingWith => copy_bulk(plan, command.argument()),
        Op::Fault(kind) => copy_error(plan, kind),
        _ => plan.copy(b"+PONG\r\n"),
    }
}

// The only part's answer is the reply.
fn answer_one<R: Wait, N: BookName, P: PoolName>(
    rt: &R,
    shop: &Shop<'_, N, P>,
    pass: &mut Pass<N, P>,
    at: Entry,
    command: &Command,
    plan: &mut Plan<'_, P>,
    stored: &mut Segs,
) -> Result<(), Memory>
    requires kind { HasOnePart command.now }
    requires session { (at.session ≡ pass.old.list.number) × (at.part ≡ 0) }
    requires credits { 1 < pass.old.seat.credits }
    requires spare { frags_limit ≤ stored.old.spare }
    requires started { IsStarted (need_of command.now) plan.old }
    ensures reply { OnOk result (HasReply P.sizes N.sizes.shards at.call command.now pass.old pass.new
        stored.old.items stored.new.items plan.new) }
    ensures stopped { OnErr result (LacksMemory P.sizes N.sizes.shards at.call command.now pass.old pass.new) }
    ensures untold { OnErr result (stored.new.items ≡ stored.old.items) }
    ensures base { plan.new.base ≡ plan.old.base }
    ensures spare { OnOk result
        (stored.old.spare + length stored.old.items ≤ stored.new.spare + length stored.new.items) }
{
    let answer = run_part(rt, shop, pass, at, command, plan, stored)?;
    copy_answer(plan, answer);
    Ok(())
}

// The next value, or null.
fn answer_value<R: Wait, N: BookName, P: PoolName>(
    rt: &R,
    shop: &Shop<'_, N, P>,
    pass: &mut Pass<N, P>,
    at: Entry,
    command: &Command,
    plan: &mut Plan<'_, P>,
    stored: &mut Segs,
) -> Result<(), Memory>
    requires kind { AsksValues command.now }
    requires session { at.session ≡ pass.old.list.number }
    requires part { at.part < length (parts command.now) }
    requires credits { 1 < pass.old.seat.credits }
    requires spare { frags_limit ≤ stored.old.spare }
    requires none { plan.old.begun ≡ None }
    requires room { 0 < room_of plan.old }
    ensures value { OnOk result (AddsValue P.sizes N.sizes.shards at (part_at command.now at.part) pass.old pass.new
        stored.old.items stored.new.items plan.old plan.new) }
    ensures missed { OnErr result (MissesPart P.sizes (part_at command.now at.part) pass.old pass.new) }
    ensures segs { stored.new.items ≡ stored.old.items }
    ensures base { plan.new.base ≡ plan.old.base }
    ensures spare { OnOk result (stored.old.spare ≤ stored.new.spare) }
{
    match run_part(rt, shop, pass, at, command, plan, stored)? {
        PartAnswer::Bulk => {}
        _ => plan.copy(NULL),
    }
    Ok(())
}

// An array of the values of keys.
fn answer_values<R: Wait, N: BookName, P: PoolName>(
    rt: &R,
    shop: &Shop<'_, N, P>,
    pass: &mut Pass<N, P>,
    at: Entry,
    command: &Command,
    plan: &mut Plan<'_, P>,
    stored: &mut Segs,
) -> Result<(), Memory>
    requires kind { AsksValues command.now }
    requires session { at.session ≡ pass.old.list.number }
    requires credits { 1 < pass.old.seat.credits }
    requires spare { frags_limit ≤ stored.old.spare }
    requires started { IsStarted (need_of command.now) plan.old }
    ensures reply { OnOk result (HasReply P.sizes N.sizes.shards at.call command.now pass.old pass.new
        stored.old.items stored.new.items plan.new) }
    ensures stopped { OnErr result (LacksMemory P.sizes N.sizes.shards at.call command.now pass.old pass.new) }
    ensures untold { OnErr result (stored.new.items ≡ stored.old.items) }
    ensures base { plan.new.base ≡ plan.old.base }
    ensures spare { OnOk result
        (stored.old.spare + length stored.old.items ≤ stored.new.spare + length stored.new.items) }
{
    let count = command.count();
    copy_line(plan, b'*', count as u64);
    for j in 0..count {
        let next = entry_of(at, j);
        answer_value(rt, shop, pass, next, command, plan, stored)?;
    }
    Ok(())
}

// The entry of a part of the same call.
fn entry_of(at: Entry, j: usize) -> Entry
    requires { j < 64 }
    ensures { result ≡ entry_at at.session at.call j }
{
    Entry {
        session: at.session,
        call: at.call,
        part: j as u16,
    }
}

// Runs the next part, which counts where its key was there.
fn count_key<R: Wait, N: BookName, P: PoolName>(
    rt: &R,
    shop: &Shop<'_, N, P>,
    pass: &mut Pass<N, P>,
    at: Entry,
    command: &Command,
    plan: &mut Plan<'_, P>,
    stored: &mut Segs,
) -> Result<u64, Memory>
    requires kind { Counts command.now }
    requires session { at.session ≡ pass.old.list.number }
    requires part { at.part < length (parts command.now) }
    requires credits { 1 < pass.old.seat.credits }
    requires spare { frags_limit ≤ stored.old.spare }
    requires none { plan.old.begun ≡ None }
    ensures counted { IfOk result (λ n. CountsKey P.sizes N.sizes.shards at (part_at command.now at.part) n
        pass.old pass.new stored.old.items stored.new.items plan.old plan.new) }
    ensures missed { OnErr result (MissesPart P.sizes (part_at command.now at.part) pass.old pass.new) }
    ensures segs { stored.new.items ≡ stored.old.items }
    ensures base { plan.new.base ≡ plan.old.base }
    ensures spare { OnOk result (stored.old.spare ≤ stored.new.spare) }
{
    match run_part(rt, shop, pass, at, command, plan, stored)? {
        PartAnswer::Did(happened) => Ok(u64::from(happened)),
        _ => Ok(0),
    }
}

// How many of the keys were there.
fn answer_count<R: Wait, N: BookName, P: PoolName>(
    rt: &R,
    shop: &Shop<'_, N, P>,
    pass: &mut Pass<N, P>,
    at: Entry,
    command: &Command,
    plan: &mut Plan<'_, P>,
    stored: &mut Segs,
) -> Result<(), Memory>
    requires kind { Counts command.now }
    requires session { at.session ≡ pass.old.list.number }
    requires credits { 1 < pass.old.seat.credits }
    requires spare { frags_limit ≤ stored.old.spare }
    requires started { IsStarted (need_of command.now) plan.old }
    ensures reply { OnOk result (HasReply P.sizes N.sizes.shards at.call command.now pass.old pass.new
        stored.old.items stored.new.items plan.new) }
    ensures stopped { OnErr result (LacksMemory P.sizes N.sizes.shards at.call command.now pass.old pass.new) }
    ensures untold { OnErr result (stored.new.items ≡ stored.old.items) }
    ensures base { plan.new.base ≡ plan.old.base }
    ensures spare { OnOk result
        (stored.old.spare + length stored.old.items ≤ stored.new.spare + length stored.new.items) }
{
    let mut there = 0;
    for j in 0..command.count() {
        let next = entry_of(at, j);
        there += count_key(rt, shop, pass, next, command, plan, stored)?;
    }
    copy_line(plan, b':', there);
    Ok(())
}
