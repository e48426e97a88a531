// The sessions with their sources and wires, before they are served and after.
ghost use Rattle.std.specs.Prelude.{◌≡◌, ◌<◌, ◌≤◌, ◌++◌, [], None, All, length, map, vec_capacity};
ghost use Rattle.std.specs.List.{AllZip};
ghost use Rattle.std.specs.Vec.Iter.{into_iter_items};
ghost use Rattle.device_model.specs.Devices.{CanFrame};
ghost use Rattle.serve_inputs.specs.Jobs.{IsNewJob, IsDone};
ghost use Rattle.run_resources.specs.Opened.{IsSessionSlot};

use crate::job::{FinishedJob, ServeJob};
use crate::workers::{serve_all, serve_job};
use any_wire::WireCalls;
use command_exec::Shop;
use command_pump::Pump;
use flake_base::Source;
use order_book::BookName;
use pinned_pool::PoolName;
use run_resources::SessionSlot;
use session_pass::Gate;
use session_serve::{DumpTurn, Link};
use std::alloc::Global;
use std::sync::Wait;
use std::thread::Threads;
use std::vec::IntoIter;

/// Each session slot gets the source and the wire at its place, and puts frames of at most so many bytes, if there is
/// a bound. Wires past them are left.
pub(crate) fn line_up<N: BookName, P: PoolName + Send, S: Source + Drop, W: Drop>(
    alloc: Global,
    mtu: Option<u16>,
    slots: Vec<SessionSlot<N, P>>,
    sources: Vec<S>,
    wires: Vec<W>,
    jobs: Vec<ServeJob<N, P, S, W>>,
) -> (Vec<ServeJob<N, P, S, W>>, IntoIter<W>)
    requires slots { All (λ d. IsSessionSlot P.sizes d.session d.device.end d.device.failed) slots.items }
    requires sources { length sources.items ≡ length slots.items }
    requires unread { All (λ s. S.given s ≡ []) sources.items }
    requires wires { length slots.items ≤ length wires.items }
    requires room { (jobs.items ≡ []) × (length slots.items ≤ vec_capacity jobs) }
    requires mtu { CanFrame mtu }
    ensures fresh { All (λ job. IsNewJob P.sizes N.sizes.shards job.link.session job.link.pump job.link.device.end
        job.link.device.failed job.link.mtu job.link.dump.plan job.link.dump.taken job.dump_wire) result.0.items }
    ensures unasked { All (λ job. job.link.dump.plan ≡ None) result.0.items }
    ensures mtus { All (λ job. job.link.mtu ≡ mtu) result.0.items }
    ensures sessions { map (λ job. job.link.session) result.0.items ≡ map (λ d. d.session) slots.items }
    ensures names { map (λ job. job.link.pump.origin.name) result.0.items ≡ map (λ s. S.name s) sources.items }
    ensures wholes { map (λ job. job.link.pump.origin.whole) result.0.items ≡ map (λ s. S.whole s) sources.items }
    ensures faults { map (λ job. job.link.pump.faults) result.0.items ≡ map (λ s. S.read_faults s) sources.items }
    ensures wires { map (λ job. job.wire) result.0.items ++ into_iter_items result.1 ≡ wires.items }
{
    let mut jobs = jobs;
    let mut more_sources = sources.into_iter();
    let mut more_wires = wires.into_iter();
    for slot in slots {
        let Some(source) = more_sources.next() else {
            unreachable!()
        };
        let Some(wire) = more_wires.next() else {
            unreachable!()
        };
        let SessionSlot { session, device } = slot;
        let pump = Pump::new(alloc, source);
        let dump = DumpTurn::new(alloc, None);
        let link = Link {
            session,
            pump,
            device,
            dump,
            mtu,
        };
        jobs.push_reserved(ServeJob {
            link,
            wire,
            dump_wire: None,
        });
    }
    (jobs, more_wires)
}

// One after another on this thread.
fn serve_here<
    R: Threads + Wait + Sync,
    N: BookName,
    P: PoolName + Send + Sync,
    S: Source + Drop,
    G: Gate,
    W: Send + Drop,
    C: WireCalls<W> + Sync,
>(
    rt: &R,
    alloc: Global,
    shop: &Shop<'_, N, P>,
    jobs: Vec<ServeJob<N, P, S, W>>,
    dones: Vec<FinishedJob<N, P, S, W>>,
    gate: &G,
    calls: &C,
) -> Vec<FinishedJob<N, P, S, W>>
    requires calls { C.can_put calls.now × C.can_flush calls.now }
    requires fresh { All (λ job. IsNewJob P.sizes N.sizes.shards job.link.session job.link.pump job.link.device.end
        job.link.device.failed job.link.mtu job.link.dump.plan job.link.dump.taken job.dump_wire) jobs.items }
    requires room { (dones.items ≡ []) × (length jobs.items ≤ vec_capacity dones) }
    ensures { AllZip (λ job done. IsDone job.link.mtu (C.put_may calls.now) (C.flush_may calls.now)
        P.sizes N.sizes.shards job.link.session job.link.pump job.link.dump.plan
        job.wire job.dump_wire done.account.end done.account.sent done.account.mine done.account.seat
        done.account.pump done.wire done.dump) jobs.items result.items }
{
    let mut dones = dones;
    for job in jobs {
        dones.push_reserved(serve_job(rt, alloc, shop, job, gate, calls));
    }
    dones
}

/// All jobs are done: by the workers, and where memory is wanting for these, on this thread.
pub(crate) fn serve_jobs<
    R: Threads + Wait + Sync,
    N: BookName + Send + Sync,
    P: PoolName + Send + Sync,
    S: Source + Send + Drop,
    G: Gate,
    W: Send + Drop,
    C: WireCalls<W> + Sync,
>(
    rt: &R,
    alloc: Global,
    shop: &Shop<'_, N, P>,
    jobs: Vec<ServeJob<N, P, S, W>>,
    dones: Vec<FinishedJob<N, P, S, W>>,
    workers: u16,
    gate: &G,
    calls: &C,
) -> Vec<FinishedJob<N, P, S, W>>
    requires calls { C.can_put calls.now × C.can_flush calls.now }
    requires workers { (0 < workers) × (workers ≤ 16) }
    requires fresh { All (λ job. IsNewJob P.sizes N.sizes.shards job.link.session job.link.pump job.link.device.end
        job.link.device.failed job.link.mtu job.link.dump.plan job.link.dump.taken job.dump_wire) jobs.items }
    requires room { (dones.items ≡ []) × (length jobs.items ≤ vec_capacity dones) }
    ensures { AllZip (λ job done. IsDone job.link.mtu (C.put_may calls.now) (C.flush_may calls.now)
        P.sizes N.sizes.shards job.link.session job.link.pump job.link.dump.plan
        job.wire job.dump_wire done.account.end done.account.sent done.account.mine done.account.seat
        done.account.pump done.wire done.dump) jobs.items result.items }
{
    match serve_all(rt, alloc, shop, jobs, workers, gate, calls) {
        Ok(dones) => dones,
        Err(jobs) => serve_here(rt, alloc, shop, jobs, dones, gate, calls),
    }
}
