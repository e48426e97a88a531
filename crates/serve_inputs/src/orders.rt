// The dump that the first session is asked for: its seat comes off the one that the opening keeps, and its wire is that
// behind the sessions' wires. Both go back.
ghost use Rattle.std.specs.Prelude.{◌≡◌, ◌+◌, ◌<◌, ◌≤◌, None, Some, All, length, map, IfNone, IfSome, vec_capacity};
ghost use Rattle.std.specs.List.{insert};
ghost use Rattle.pinned_pool.specs.Moves.{joined_views};
ghost use Rattle.serve_model.specs.Seats.{IsSpare};
ghost use Rattle.run_resources.specs.Opened.{dump_credits, dump_wires};
ghost use Rattle.session_serve.specs.Dumps.{CanKeepAll};
ghost use Rattle.serve_inputs.specs.Jobs.{IsNewJob};
ghost use Rattle.serve_inputs.specs.Dumped.{dump_told, no_dump};
ghost use Rattle.serve_inputs.specs.Orders.{IsFirstAsked, first_or_none};

use crate::dumped::DumpEnd;
use crate::job::{Dumped, FinishedJob, ServeJob};
use flake_base::Source;
use order_book::BookName;
use pinned_pool::{Pool, PoolName, PoolSeat};
use run_resources::RunSizes;
use session_serve::{DumpPlan, DumpTurn};
use std::alloc::Global;

/// A dump that a session is to be asked for.
#[derive(Drop)]
pub(crate) struct Order<P: PoolName, W> {
    pub(crate) plan: DumpPlan<P>,
    pub(crate) wire: W,
}

/// The order that the sizes ask for, of `count` sessions.
pub(crate) fn split_order<P: PoolName, W: Drop>(
    pool: &Pool<P>,
    main: &mut PoolSeat<P>,
    sizes: &RunSizes,
    count: usize,
    wires: &mut Vec<W>,
) -> Option<Order<P, W>>
    requires wires { count + dump_wires sizes.now.dump ≤ length wires.old.items }
    requires main { IsSpare main.old × (main.old.credits ≡ 1 + dump_credits sizes.now) }
    ensures main { IsSpare main.new × (main.new.credits ≡ 1) }
    ensures none { IfNone result ((sizes.now.dump ≡ None) × (wires.new.items ≡ wires.old.items)) }
    ensures before { IfSome result (λ o. sizes.now.dump ≡ Some o.plan.before) }
    ensures seat { IfSome result (λ o. IsSpare o.plan.seat × (o.plan.seat.credits ≡ dump_credits sizes.now)) }
    ensures wires { IfSome result (λ o. wires.old.items ≡ insert wires.new.items count o.wire) }
    ensures left { length wires.new.items + dump_wires sizes.now.dump ≡ length wires.old.items }
{
    let Some(before) = sizes.dump else {
        return None;
    };
    let seat = pool.split(main, (), sizes.dump_credits());
    let wire = wires.remove(count);
    let plan = DumpPlan { before, seat };
    Some(Order { plan, wire })
}

/// The first session is asked for it.
pub(crate) fn ask_first<N: BookName, P: PoolName + Send, S: Source + Drop, W: Drop>(
    alloc: Global,
    jobs: &mut Vec<ServeJob<N, P, S, W>>,
    order: Option<Order<P, W>>,
)
    requires order { IfSome order (λ o. CanKeepAll P.sizes N.sizes.shards o.plan.seat) }
    requires one { 0 < length jobs.old.items }
    requires fresh { All (λ job. IsNewJob P.sizes N.sizes.shards job.link.session job.link.pump job.link.device.end
        job.link.device.failed job.link.mtu job.link.dump.plan job.link.dump.taken job.dump_wire) jobs.old.items }
    requires unasked { All (λ job. job.link.dump.plan ≡ None) jobs.old.items }
    ensures fresh { All (λ job. IsNewJob P.sizes N.sizes.shards job.link.session job.link.pump job.link.device.end
        job.link.device.failed job.link.mtu job.link.dump.plan job.link.dump.taken job.dump_wire) jobs.new.items }
    ensures asked { IsFirstAsked order (map (λ job. (job.link.dump.plan, job.dump_wire)) jobs.new.items) }
    ensures sessions { map (λ job. job.link.session) jobs.new.items ≡ map (λ job. job.link.session) jobs.old.items }
    ensures pumps { map (λ job. job.link.pump) jobs.new.items ≡ map (λ job. job.link.pump) jobs.old.items }
    ensures wires { map (λ job. job.wire) jobs.new.items ≡ map (λ job. job.wire) jobs.old.items }
    ensures mtus { map (λ job. job.link.mtu) jobs.new.items ≡ map (λ job. job.link.mtu) jobs.old.items }
{
    let Some(order) = order else {
        return;
    };
    let Order { plan, wire } = order;
    let job = &mut jobs[0];
    job.link.dump = DumpTurn::new(alloc, Some(plan));
    job.dump_wire = Some(wire);
}

/// What came of the first session's dump.
pub(crate) fn first_dumped<N: BookName, P: PoolName, S: Source + Drop, W: Drop>(
    dones: &mut Vec<FinishedJob<N, P, S, W>>,
) -> Option<Dumped<P, W>>
    ensures first { result ≡ first_or_none (map (λ d. d.dump) dones.old.items) }
    ensures accounts { map (λ d. d.account) dones.new.items ≡ map (λ d. d.account) dones.old.items }
    ensures wires { map (λ d. d.wire) dones.new.items ≡ map (λ d. d.wire) dones.old.items }
{
    let done = dones.first_mut()?;
    done.dump.take()
}

/// The seat goes back into the main one, and the wire behind those of so many sessions.
pub(crate) fn put_back<P: PoolName, W: Drop>(
    alloc: Global,
    pool: &Pool<P>,
    main: &mut PoolSeat<P>,
    dumped: Option<Dumped<P, W>>,
    count: usize,
    wires: Vec<W>,
) -> (DumpEnd, Vec<W>)
    requires { IfSome dumped (λ d. (count ≤ length wires.items) × (length wires.items < vec_capacity wires)) }
    ensures none { IfNone dumped ((dump_told result.0 ≡ no_dump) × (result.1.items ≡ wires.items)
        × (main.new ≡ main.old)) }
    ensures dump { IfSome dumped (λ d. dump_told result.0
        ≡ record { points = d.points.items; taken = d.taken; bytes = d.bytes; failed = d.failed }) }
    ensures seat { IfSome dumped (λ d. main.new ≡ joined_views main.old d.seat) }
    ensures wires { IfSome dumped (λ d. result.1.items ≡ insert wires.items count d.wire) }
{
    let mut wires = wires;
    let Some(dumped) = dumped else {
        return (DumpEnd::none(alloc), wires);
    };
    let Dumped {
        points,
        taken,
        bytes,
        failed,
        seat,
        wire,
    } = dumped;
    pool.join(main, seat);
    let Ok(()) = wires.insert(count, wire) else {
        unreachable!()
    };
    let dump = DumpEnd {
        points,
        taken,
        bytes,
        failed,
    };
    (dump, wires)
}
