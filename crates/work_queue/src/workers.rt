// All the memory, and then all the work.
ghost use Rattle.std.specs.Prelude.{◌≡◌, ◌<◌, [], ◌≤◌, All, vec_len, IfOk, IfErr};
ghost use Rattle.std.specs.List.{AllZip};
ghost use Rattle.crossbeam_queue.specs.Passes.{view, IsPassOf, ruled_capacity};
ghost use Rattle.work_queue.specs.Dealt.{hand};
ghost use Rattle.work_queue.specs.Room.{HasWorkersRoom};

use crate::crew::{by_workers, finish};
use crate::hand::{Hand, Jobs, Numbered};
use crate::passes::push_all;
use crate::room::Room;
use crate::slots::emptied;
use crossbeam_queue::Pass;
use std::alloc::Global;
use std::cmp;
use std::sync::Wait;
use std::thread::Threads;

/// Calls `f` at each job, once, in so many workers that take the jobs from one queue in their order, each the next one
/// when it has done its last. The result of each job stands at the job's place.
///
/// There are no more workers than jobs. The caller is one of them, and each other has a thread of its own where one can
/// be started; where none can be, the others do its share. `Err` hands the jobs back, where memory was wanting: all of
/// it is taken before `f` is called for the first time.
pub fn in_workers<R: Threads + Wait + Sync, T: Send + Drop, X: Send + Drop, F: Fn(T) -> X + Sync>(
    rt: &R,
    alloc: Global,
    jobs: Vec<T>,
    workers: u16,
    f: &F,
) -> Result<Vec<X>, Vec<T>>
    requires workers { (0 < workers) × (workers ≤ 16) }
    requires calls { F.IsAlwaysCallable f.now }
    ensures each { IfOk result (λ results. AllZip (λ job r. F.post f.now job r) jobs.items results.items) }
    ensures back { IfErr result (λ back. back ≡ jobs) }
{
    jobs_in_workers(rt, alloc, jobs, workers, f)
}

/// As `in_workers`, for an `f` that asks something of a job, which is true of each of these.
pub fn jobs_in_workers<
    R: Threads + Wait + Sync,
    T: Send + Drop,
    X: Send + Drop,
    F: Fn(T) -> X + Sync,
>(rt: &R, alloc: Global, jobs: Vec<T>, workers: u16, f: &F) -> Result<Vec<X>, Vec<T>>
    requires workers { (0 < workers) × (workers ≤ 16) }
    requires calls { All (λ job. F.pre f.now job) jobs.items }
    ensures each { IfOk result (λ results. AllZip (λ job r. F.post f.now job r) jobs.items results.items) }
    ensures back { IfErr result (λ back. back ≡ jobs) }
{
    if jobs.is_empty() {
        return Ok(Vec::new(alloc));
    }
    let Ok((queue, pass)) = Jobs::ruled(alloc, jobs.len()) else {
        return Err(jobs);
    };
    let crew = cmp::min(workers as usize, jobs.len());
    let Ok(room) = Room::taken(alloc, crew, jobs.len()) else {
        return Err(jobs);
    };
    Ok(run(rt, &queue, pass, jobs, room, f))
}

// With all memory at hand.
fn run<R: Threads + Wait + Sync, T: Send + Drop, X: Send + Drop, F: Fn(T) -> X + Sync>(
    rt: &R,
    queue: &Jobs<T>,
    pass: Pass<Numbered<T>, Hand<T>>,
    jobs: Vec<T>,
    room: Room<T, X>,
    f: &F,
) -> Vec<X>
    requires pass { IsPassOf queue.now pass × (view pass ≡ hand 1024 [] []) }
    requires queue { vec_len jobs ≤ ruled_capacity queue.now }
    requires room { (vec_len room.dones ≤ 16) × HasWorkersRoom (vec_len room.dones) (vec_len jobs) room }
    requires calls { All (λ job. F.pre f.now job) jobs.items }
    ensures { AllZip (λ job r. F.post f.now job r) jobs.items result.items }
{
    let Room {
        dones,
        worker_slots,
        rest,
        slots,
        results,
    } = room;
    let mut pass = push_all(rt, queue, pass, jobs);
    let mut slots = slots;
    let row = slots.as_mut_slice();
    by_workers(rt, queue, &mut pass, dones, worker_slots, row, f);
    finish(rt, queue, pass, rest, row, f);
    emptied(slots, results)
}
