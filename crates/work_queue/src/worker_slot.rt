// Where a worker works.
ghost use Rattle.std.specs.Prelude.{All};
ghost use Rattle.work_queue.specs.Work.{IsReady, IsLeft};
ghost use Rattle.std.specs.List.{AllZip};

use crate::hand::{Done, Hand, Jobs, Numbered, Takes};
use crossbeam_queue::Pass;
use std::sync::Wait;
use std::thread;
use std::thread::Threads;

/// A pass of the queue, and what the jobs gave that were taken with it.
#[derive(Drop)]
pub(crate) struct WorkerSlot<T, X> {
    pub pass: Pass<Numbered<T>, Hand<T>>,
    pub done: Vec<Done<X>>,
}

/// Takes jobs until none is left.
pub(crate) fn work<R: Wait, T: Send + Drop, X: Drop, F: Fn(T) -> X>(
    rt: &R,
    queue: &Jobs<T>,
    worker_slot: &mut WorkerSlot<T, X>,
    f: &F,
)
    requires { IsReady queue.now (λ job. F.pre f.now job) worker_slot.old }
    ensures { IsLeft queue.now (λ job r. F.post f.now job r) worker_slot.old worker_slot.new }
{
    for _ in rt.forever() {
        let Some(Numbered { number, job }) = queue.pop_as::<Takes, R>(rt, &mut worker_slot.pass)
        else {
            return;
        };
        let result = f(job);
        worker_slot.done.push_reserved(Done { number, result });
    }
}

/// Each worker slot has a worker, in a thread of its own where one can be started.
pub(crate) fn all_work<
    R: Threads + Wait + Sync,
    T: Send + Drop,
    X: Send + Drop,
    F: Fn(T) -> X + Sync,
>(rt: &R, queue: &Jobs<T>, worker_slots: &mut [WorkerSlot<T, X>], f: &F)
    requires { All (IsReady queue.now (λ job. F.pre f.now job)) worker_slots.old }
    ensures { AllZip (IsLeft queue.now (λ job r. F.post f.now job r)) worker_slots.old worker_slots.new }
{
    if worker_slots.is_empty() {
        return;
    }
    let threads = worker_slots.len();
    thread::for_each_mut(
        rt,
        worker_slots,
        threads,
        &|_place: usize, worker_slot: &mut WorkerSlot<T, X>|
            requires { IsReady queue.now (λ job. F.pre f.now job) worker_slot.old }
            ensures { IsLeft queue.entry.now (λ job r. F.post f.entry.now job r) worker_slot.old worker_slot.new }
        { work(rt, queue, worker_slot, f) },
    );
}
