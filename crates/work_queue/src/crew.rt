// All workers together, and who does what they left.
ghost use Rattle.std.specs.Prelude.{◌≡◌, ◌<◌, ◌≤◌, [], All, None, length, replicate, vec_len, vec_capacity};
ghost use Rattle.crossbeam_queue.specs.Passes.{view, IsPassOf};
ghost use Rattle.work_queue.specs.Slots.{AllFilled, Filled};
ghost use Rattle.work_queue.specs.Room.{IsRoomy};
ghost use Rattle.work_queue.specs.Work.{Gathered, HasLent};

use crate::hand::{Done, Hand, Jobs, Numbered};
use crate::passes::{collect, seated};
use crate::slots::place;
use crate::worker_slot::{WorkerSlot, all_work, work};
use crossbeam_queue::Pass;
use std::sync::Wait;
use std::thread::Threads;

/// A worker for each list of results; what they did stands in the slots of its jobs.
pub(crate) fn by_workers<
    R: Threads + Wait + Sync,
    T: Send + Drop,
    X: Send + Drop,
    F: Fn(T) -> X + Sync,
>(
    rt: &R,
    queue: &Jobs<T>,
    pass: &mut Pass<Numbered<T>, Hand<T>>,
    dones: Vec<Vec<Done<X>>>,
    worker_slots: Vec<WorkerSlot<T, X>>,
    slots: &mut [Option<X>],
    f: &F,
)
    requires pass { IsPassOf queue.now pass.old × ((view pass.old).parts ≡ 1024) × ((view pass.old).taken ≡ []) }
    requires room { (vec_len dones ≤ 16) × (worker_slots.items ≡ []) × (vec_len dones ≤ vec_capacity worker_slots) }
    requires dones { All (IsRoomy (length (view pass.old).all)) dones.items }
    requires slots { slots.old ≡ replicate (length (view pass.old).all) None }
    requires calls { All (λ job. F.pre f.now job) (view pass.old).all }
    ensures pass { IsPassOf queue.now pass.new }
    ensures parts { (view pass.new).parts ≡ 1024 }
    ensures all { (view pass.new).all ≡ (view pass.old).all }
    ensures slots { Filled (λ job r. F.post f.now job r) (view pass.old).all (view pass.new).taken slots.new }
{
    let worker_slots = worked(rt, queue, pass, dones, worker_slots, f);
    collect(queue, pass, worker_slots, slots);
}

// The worker slots, once no job is left.
fn worked<R: Threads + Wait + Sync, T: Send + Drop, X: Send + Drop, F: Fn(T) -> X + Sync>(
    rt: &R,
    queue: &Jobs<T>,
    pass: &mut Pass<Numbered<T>, Hand<T>>,
    dones: Vec<Vec<Done<X>>>,
    worker_slots: Vec<WorkerSlot<T, X>>,
    f: &F,
) -> Vec<WorkerSlot<T, X>>
    requires pass { IsPassOf queue.now pass.old × (vec_len dones < (view pass.old).parts) }
    requires room { (worker_slots.items ≡ []) × (vec_len dones ≤ vec_capacity worker_slots) }
    requires dones { All (IsRoomy (length (view pass.old).all)) dones.items }
    requires calls { All (λ job. F.pre f.now job) (view pass.old).all }
    ensures pass { HasLent queue.now (vec_len dones) pass.old pass.new }
    ensures worker_slots { Gathered queue.now (λ job r. F.post f.now job r) (view pass.old).all
        (vec_len dones) result.items }
{
    let mut worker_slots = seated(queue, pass, dones, worker_slots);
    all_work(rt, queue, worker_slots.as_mut_slice(), f);
    worker_slots
}

/// What is left is done with the whole pass, and then each slot is full.
pub(crate) fn finish<R: Wait, T: Send + Drop, X: Drop, F: Fn(T) -> X>(
    rt: &R,
    queue: &Jobs<T>,
    pass: Pass<Numbered<T>, Hand<T>>,
    done: Vec<Done<X>>,
    slots: &mut [Option<X>],
    f: &F,
)
    requires pass { IsPassOf queue.now pass × ((view pass).parts ≡ 1024) }
    requires done { IsRoomy (length (view pass).all) done }
    requires slots { Filled (λ job r. F.post f.now job r) (view pass).all (view pass).taken slots.old }
    requires calls { All (λ job. F.pre f.now job) (view pass).all }
    ensures { AllFilled (λ job r. F.post f.now job r) (view pass).all slots.new }
{
    let mut last = WorkerSlot { pass, done };
    work(rt, queue, &mut last, f);
    let WorkerSlot { done, .. } = last;
    place(slots, done);
}
