// Room that is taken before anything is read.
ghost use Rattle.std.specs.Prelude.{◌≡◌, ◌≤◌, [], vec_capacity, IfOk};
ghost use Rattle.drive_script.specs.Says.{text_room};

use crate::results::Results;
use drive_script::LineRoom;
use flake_base::Memory;
use order_book::BookName;
use std::alloc::Global;

/// Empty lists with room for what a run puts into them: sessions, what each leaves, and what comes back; and room for
/// a line.
#[derive(Drop)]
pub(crate) struct Space<D, A, N: BookName, S, W> {
    pub(crate) alloc: Global,
    pub(crate) drivings: Vec<D>,
    pub(crate) accounts: Vec<A>,
    pub(crate) line: LineRoom,
    pub(crate) results: Results<N, S, W>,
}

impl<D: Drop, A: Drop, N: BookName, S: Drop, W: Drop> Space<D, A, N, S, W> {
    /// For so many sessions, and for so many wires.
    pub(crate) fn taken(alloc: Global, count: usize, wires: usize) -> Result<Self, Memory>
        ensures drivings { IfOk result (λ s. (s.drivings.items ≡ []) × (count ≤ vec_capacity s.drivings)) }
        ensures accounts { IfOk result (λ s. (s.accounts.items ≡ []) × (count ≤ vec_capacity s.accounts)) }
        ensures line { IfOk result (λ s. text_room ≤ vec_capacity s.line.text) }
        ensures ends { IfOk result (λ s. (s.results.ends.items ≡ []) × (count ≤ s.results.ends.spare)) }
        ensures lists { IfOk result (λ s. (s.results.lists.items ≡ []) × (count ≤ s.results.lists.spare)) }
        ensures sources { IfOk result (λ s. (s.results.sources.items ≡ []) × (count ≤ vec_capacity s.results.sources)) }
        ensures wires { IfOk result (λ s. (s.results.wires.items ≡ []) × (wires ≤ vec_capacity s.results.wires)) }
    {
        Ok(Space {
            alloc,
            drivings: Vec::with_capacity(alloc, count)?,
            accounts: Vec::with_capacity(alloc, count)?,
            line: LineRoom::new(alloc)?,
            results: Results::with_room(alloc, count, wires)?,
        })
    }
}
