// All sessions, by some workers.
ghost use Rattle.std.specs.Prelude.{◌≡◌, ◌<◌, ◌≤◌, [], false, All, IfOk, IfErr};
ghost use Rattle.std.specs.List.{AllZip};
ghost use Rattle.serve_inputs.specs.Jobs.{IsNewJob, IsDone, IsWritten};

use crate::job::{Dumped, FinishedJob, ServeJob};
use any_wire::WireCalls;
use command_exec::Shop;
use flake_base::Source;
use order_book::BookName;
use pinned_pool::{Pool, PoolName};
use session_pass::{Gate, Written};
use session_serve::{DumpTaken, serve_beside};
use std::alloc::Global;
use std::sync::Wait;
use std::thread::Threads;
use work_queue::jobs_in_workers;

/// Serves each session, once, by so many workers that take them from one queue in their order. What a session leaves
/// stands at its place. Where memory is wanting the sessions come back as they were, and nothing was read.
pub fn serve_all<
    R: Threads + Wait + Sync,
    N: BookName + Send + Sync,
    P: PoolName + Send + Sync,
    S: Source + Send + Drop,
    G: Gate,
    W: Send + Drop,
    C: WireCalls<W> + Sync,
>(
    rt: &R,
    alloc: Global,
    shop: &Shop<'_, N, P>,
    jobs: Vec<ServeJob<N, P, S, W>>,
    workers: u16,
    gate: &G,
    calls: &C,
) -> Result<Vec<FinishedJob<N, P, S, W>>, Vec<ServeJob<N, P, S, W>>>
    requires calls { C.can_put calls.now × C.can_flush calls.now }
    requires workers { (0 < workers) × (workers ≤ 16) }
    requires fresh { All (λ job. IsNewJob P.sizes N.sizes.shards job.link.session job.link.pump job.link.device.end
        job.link.device.failed job.link.mtu job.link.dump.plan job.link.dump.taken job.dump_wire) jobs.items }
    ensures served { IfOk result (λ dones. AllZip (λ job done. IsDone job.link.mtu (C.put_may calls.now)
        (C.flush_may calls.now) P.sizes N.sizes.shards job.link.session job.link.pump job.link.dump.plan
        job.wire job.dump_wire done.account.end done.account.sent done.account.mine done.account.seat
        done.account.pump done.wire done.dump) jobs.items dones.items) }
    ensures back { IfErr result (λ back. back ≡ jobs) }
{
    jobs_in_workers(
        rt,
        alloc,
        jobs,
        workers,
        &|job: ServeJob<N, P, S, W>| -> FinishedJob<N, P, S, W>
            requires { IsNewJob P.sizes N.sizes.shards job.link.session job.link.pump job.link.device.end
                job.link.device.failed job.link.mtu job.link.dump.plan job.link.dump.taken job.dump_wire
                × (C.can_put calls.now × C.can_flush calls.now) }
            ensures { IsDone job.link.mtu (C.put_may calls.entry.now)
                (C.flush_may calls.entry.now) P.sizes N.sizes.shards job.link.session job.link.pump
                job.link.dump.plan job.wire job.dump_wire result.account.end result.account.sent result.account.mine
                result.account.seat result.account.pump result.wire result.dump }
        { serve_job(rt, alloc, shop, job, gate, calls) },
    )
}

// Puts a dump that was taken on its wire, and gives its holds back.
fn write_dump<P: PoolName + Send, W: Drop, C: WireCalls<W>>(
    alloc: Global,
    pool: &Pool<P>,
    taken: DumpTaken<P>,
    wire: W,
    calls: &C,
) -> Dumped<P, W>
    requires calls { C.can_put calls.now × C.can_flush calls.now }
    ensures taken { IfOk taken (λ d. IsWritten (C.put_may calls.now) (C.flush_may calls.now) d
        wire result.points.items result.taken result.bytes result.failed result.seat result.wire) }
    ensures untaken { IfErr taken (λ seat. (result.points.items ≡ []) × (result.taken ≡ false) × (result.bytes ≡ 0)
        × (result.failed ≡ false) × (result.seat ≡ seat) × (result.wire ≡ wire)) }
{
    match taken {
        Ok(dump) => {
            let (wire, written) = dump.write(pool, wire, calls);
            let Written {
                points,
                seat,
                bytes,
                failed,
            } = written;
            Dumped {
                points,
                taken: true,
                bytes,
                failed,
                seat,
                wire,
            }
        }
        Err(seat) => Dumped {
            points: Vec::new(alloc),
            taken: false,
            bytes: 0,
            failed: false,
            seat,
            wire,
        },
    }
}

/// Serves one session on this thread, and then puts the dump that it was asked for on its wire.
pub fn serve_job<
    R: Threads + Wait + Sync,
    N: BookName,
    P: PoolName + Send + Sync,
    S: Source + Drop,
    G: Gate,
    W: Send + Drop,
    C: WireCalls<W> + Sync,
>(
    rt: &R,
    alloc: Global,
    shop: &Shop<'_, N, P>,
    job: ServeJob<N, P, S, W>,
    gate: &G,
    calls: &C,
) -> FinishedJob<N, P, S, W>
    requires calls { C.can_put calls.now × C.can_flush calls.now }
    requires fresh { IsNewJob P.sizes N.sizes.shards job.link.session job.link.pump job.link.device.end
        job.link.device.failed job.link.mtu job.link.dump.plan job.link.dump.taken job.dump_wire }
    ensures { IsDone job.link.mtu (C.put_may calls.now) (C.flush_may calls.now) P.sizes
        N.sizes.shards job.link.session job.link.pump job.link.dump.plan job.wire job.dump_wire result.account.end
        result.account.sent result.account.mine result.account.seat result.account.pump result.wire result.dump }
{
    let ServeJob {
        link,
        wire,
        dump_wire,
    } = job;
    let (wire, mut account) = serve_beside(rt, alloc, shop, link, gate, wire, calls);
    let dump = match (account.dump.take(), dump_wire) {
        (Some(taken), Some(dump_wire)) => {
            Some(write_dump(alloc, shop.pool, taken, dump_wire, calls))
        }
        _ => None,
    };
    FinishedJob {
        account,
        wire,
        dump,
    }
}
