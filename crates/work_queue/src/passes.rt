// Jobs are dealt: the passes of the queue at the start and at the end of the work.
ghost use Rattle.std.specs.Prelude.{◌≡◌, ◌+◌, ◌<◌, ◌++◌, [], ◌≤◌, All, vec_len, vec_capacity, length};
ghost use Rattle.crossbeam_queue.specs.Passes.{view, IsPassOf, ruled_capacity};
ghost use Rattle.work_queue.specs.Dealt.{hand};
ghost use Rattle.work_queue.specs.Slots.{filled_slots};
ghost use Rattle.work_queue.specs.Room.{IsRoomy};
ghost use Rattle.work_queue.specs.Work.{HasAbsorbed, HasLent, HasWorkBelow, IsNew, all_done};

use crate::hand::{Cut, Done, Hand, Jobs, Numbered, Puts};
use crate::slots::place;
use crate::worker_slot::WorkerSlot;
use crossbeam_queue::Pass;
use std::sync::Wait;

/// All jobs go into the queue, each with its place.
pub(crate) fn push_all<R: Wait, T: Send + Drop>(
    rt: &R,
    queue: &Jobs<T>,
    pass: Pass<Numbered<T>, Hand<T>>,
    jobs: Vec<T>,
) -> Pass<Numbered<T>, Hand<T>>
    requires pass { IsPassOf queue.now pass × (view pass ≡ hand 1024 [] []) }
    requires room { vec_len jobs ≤ ruled_capacity queue.now }
    ensures { IsPassOf queue.now result × (view result ≡ hand 1024 jobs.items []) }
{
    let mut pass = pass;
    let mut number = 0;
    for job in jobs {
        let Ok(()) = queue.push_as::<Puts, R>(rt, &mut pass, Numbered { number, job }) else {
            unreachable!()
        };
        number += 1;
    }
    pass
}

/// A worker slot for each list, with a part of the pass.
pub(crate) fn seated<T: Send + Drop, X: Drop>(
    queue: &Jobs<T>,
    pass: &mut Pass<Numbered<T>, Hand<T>>,
    dones: Vec<Vec<Done<X>>>,
    worker_slots: Vec<WorkerSlot<T, X>>,
) -> Vec<WorkerSlot<T, X>>
    requires pass { IsPassOf queue.now pass.old × (vec_len dones < (view pass.old).parts) }
    requires room { (worker_slots.items ≡ []) × (vec_len dones ≤ vec_capacity worker_slots) }
    requires dones { All (IsRoomy (length (view pass.old).all)) dones.items }
    ensures pass { HasLent queue.now (vec_len dones) pass.old pass.new }
    ensures len { vec_len result ≡ vec_len dones }
    ensures worker_slots { All (IsNew queue.now (view pass.old).all) result.items }
{
    let mut worker_slots = worker_slots;
    for done in dones {
        let mine = queue.another::<Cut>(pass);
        worker_slots.push_reserved(WorkerSlot { pass: mine, done });
    }
    worker_slots
}

/// The passes are put together, and the results into the slots of their jobs.
pub(crate) fn collect<T: Send + Drop, X: Drop>(
    queue: &Jobs<T>,
    pass: &mut Pass<Numbered<T>, Hand<T>>,
    worker_slots: Vec<WorkerSlot<T, X>>,
    slots: &mut [Option<X>],
)
    requires pass { IsPassOf queue.now pass.old × (0 < (view pass.old).parts) }
    requires worker_slots { All (HasWorkBelow queue.now (length slots.old)) worker_slots.items }
    ensures pass { HasAbsorbed queue.now worker_slots.items pass.old pass.new }
    ensures slots { slots.new ≡ filled_slots slots.old (all_done worker_slots.items) }
{
    for worker_slot in worker_slots {
        let WorkerSlot { pass: other, done } = worker_slot;
        queue.absorb::<Cut>(pass, other);
        place(slots, done);
    }
}
