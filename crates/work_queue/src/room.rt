// The memory that a run of workers takes, all of it before the start.
ghost use Rattle.std.specs.Prelude.{◌≡◌, ◌<◌, ◌≤◌, [], All, None, IfOk, length, replicate, vec_len, vec_capacity};
ghost use Rattle.work_queue.specs.Room.{HasWorkersRoom, IsRoomy};

use crate::hand::Done;
use crate::slots::empty_slots;
use crate::worker_slot::WorkerSlot;
use std::alloc::{AllocError, Global};

/// Room for each worker's results, for the worker slots, for those who take what is left, and for the results in order.
#[derive(Drop)]
pub(crate) struct Room<T, X> {
    pub dones: Vec<Vec<Done<X>>>,
    pub worker_slots: Vec<WorkerSlot<T, X>>,
    pub rest: Vec<Done<X>>,
    pub slots: Vec<Option<X>>,
    pub results: Vec<X>,
}

impl<T: Send + Drop, X: Send + Drop> Room<T, X> {
    /// Room for so many workers, who have n jobs in all.
    pub fn taken(alloc: Global, workers: usize, n: usize) -> Result<Self, AllocError>
        ensures { IfOk result (HasWorkersRoom workers n) }
    {
        let dones = rooms(alloc, workers, n)?;
        let worker_slots = Vec::with_capacity(alloc, workers)?;
        let rest = Vec::with_capacity(alloc, n)?;
        let slots = empty_slots(alloc, n)?;
        let results = Vec::with_capacity(alloc, n)?;
        Ok(Room {
            dones,
            worker_slots,
            rest,
            slots,
            results,
        })
    }
}

// So many empty lists, each with room for n results.
fn rooms<X: Drop>(alloc: Global, count: usize, n: usize) -> Result<Vec<Vec<Done<X>>>, AllocError>
    ensures len { IfOk result (λ v. vec_len v ≡ count) }
    ensures each { IfOk result (λ v. All (IsRoomy n) v.items) }
{
    let mut rooms = Vec::with_capacity(alloc, count)?;
    for i in 0..count {
        let _place = i;
        let room = Vec::with_capacity(alloc, n)?;
        rooms.push(room)?;
    }
    Ok(rooms)
}
