//! One part of a command.
ghost use Rattle.std.specs.Prelude.{◌≡◌, ◌+◌, ◌<◌, ◌≤◌, true, None, length, IfOk, OnErr};
ghost use Rattle.flake_model.specs.Command.{parts};
ghost use Rattle.frag_value.specs.Fragments.{frags_limit};
ghost use Rattle.reply_planner.specs.Planned.{room_of, range_room_of};
ghost use Rattle.shard_core.specs.Done.{is_taking, is_ranged};
ghost use Rattle.command_exec.specs.Kinds.{part_at};
ghost use Rattle.command_exec.specs.Parted.{RunsPart, MissesPart};

use crate::pass::Pass;
use crate::shop::Shop;
use command_parts::Command;
use flake_base::{Entry, Memory, Segs};
use order_book::BookName;
use pinned_pool::PoolName;
use reply_planner::Plan;
use shard_store::{AskedPart, Commons, PartAnswer};
use std::sync::Wait;

/// Runs the part of a command that an entry names. A value that it answers goes to the plan.
#[inline(always)]
pub(crate) fn run_part<R: Wait, N: BookName, P: PoolName>(
    rt: &R,
    shop: &Shop<'_, N, P>,
    pass: &mut Pass<N, P>,
    at: Entry,
    command: &Command,
    plan: &mut Plan<'_, P>,
    stored: &mut Segs,
) -> Result<PartAnswer, Memory>
    requires session { at.session ≡ pass.old.list.number }
    requires part { at.part < length (parts command.now) }
    requires credits { 1 < pass.old.seat.credits }
    requires spare { frags_limit ≤ stored.old.spare }
    requires none { plan.old.begun ≡ None }
    requires room { is_taking (part_at command.now at.part) ≡ true → 0 < room_of plan.old }
    requires range_room { is_ranged (part_at command.now at.part) ≡ true → 0 < range_room_of plan.old }
    ensures ran { IfOk result (λ said. RunsPart P.sizes N.sizes.shards at (part_at command.now at.part) said
        pass.old pass.new stored.old.items stored.new.items plan.old plan.new) }
    ensures missed { OnErr result (MissesPart P.sizes (part_at command.now at.part) pass.old pass.new) }
    ensures untold { OnErr result (stored.new.items ≡ stored.old.items) }
    ensures base { plan.new.base ≡ plan.old.base }
    ensures spare { stored.old.spare + length stored.old.items ≤ stored.new.spare + length stored.new.items }
{
    let part = command.part(at.part as usize);
    let asked = AskedPart {
        at,
        part,
        start: pass.start,
    };
    let commons = Commons {
        pool: shop.pool,
        book: shop.book,
    };
    shop.store.run_part(
        rt,
        &commons,
        &mut pass.seat,
        &mut pass.mine,
        &asked,
        plan,
        stored,
    )
}
