// Room that is taken before anything is read.
ghost use Rattle.std.specs.Prelude.{◌≡◌, ◌≤◌, [], vec_capacity, IfOk};

use crate::results::Results;
use flake_base::Memory;
use order_book::BookName;
use std::alloc::Global;

/// Empty lists with room for what a run puts into them: jobs, what is done of them, and what comes back.
#[derive(Drop)]
pub(crate) struct Space<J, D, N: BookName, S, W> {
    pub(crate) alloc: Global,
    pub(crate) jobs: Vec<J>,
    pub(crate) dones: Vec<D>,
    pub(crate) results: Results<N, S, W>,
}

impl<J: Drop, D: Drop, N: BookName, S: Drop, W: Drop> Space<J, D, N, S, W> {
    /// For so many sessions, and for so many wires.
    pub(crate) fn taken(alloc: Global, count: usize, wires: usize) -> Result<Self, Memory>
        ensures jobs { IfOk result (λ s. (s.jobs.items ≡ []) × (count ≤ vec_capacity s.jobs)) }
        ensures dones { IfOk result (λ s. (s.dones.items ≡ []) × (count ≤ vec_capacity s.dones)) }
        ensures ends { IfOk result (λ s. (s.results.ends.items ≡ []) × (count ≤ s.results.ends.spare)) }
        ensures sent { IfOk result (λ s. (s.results.sent.items ≡ []) × (count ≤ vec_capacity s.results.sent)) }
        ensures lists { IfOk result (λ s. (s.results.lists.items ≡ []) × (count ≤ s.results.lists.spare)) }
        ensures sources { IfOk result (λ s. (s.results.sources.items ≡ []) × (count ≤ vec_capacity s.results.sources)) }
        ensures wires { IfOk result (λ s. (s.results.wires.items ≡ []) × (wires ≤ vec_capacity s.results.wires)) }
    {
        Ok(Space {
            alloc,
            jobs: Vec::with_capacity(alloc, count)?,
            dones: Vec::with_capacity(alloc, count)?,
            results: Results::with_room(alloc, count, wires)?,
        })
    }
}
