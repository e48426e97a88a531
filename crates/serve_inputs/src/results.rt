// What comes back of the sessions.
ghost use Rattle.std.specs.Prelude.{◌≡◌, ◌+◌, ◌≤◌, ◌++◌, [], length, map, vec_len, vec_capacity, IfOk};
ghost use Rattle.std.specs.Vec.Iter.{into_iter_items};
ghost use Rattle.run_resources.specs.Joined.{HasJoined};

use crate::job::FinishedJob;
use flake_base::{Ends, Memory, Source};
use order_book::{BookName, SessionSeats};
use pinned_pool::{Pool, PoolName, PoolSeat};
use session_serve::ServedAccount;
use std::alloc::Global;
use std::vec::IntoIter;

/// What comes back of the sessions, each at its place.
#[derive(Drop)]
pub(crate) struct Results<N: BookName, S, W> {
    pub(crate) ends: Ends,
    pub(crate) sent: Vec<u64>,
    pub(crate) lists: SessionSeats<N>,
    pub(crate) sources: Vec<S>,
    pub(crate) wires: Vec<W>,
}

impl<N: BookName, S: Drop, W: Drop> Results<N, S, W> {
    /// Nothing yet, with room for so many sessions, and for so many wires.
    pub(crate) fn with_room(alloc: Global, count: usize, wires: usize) -> Result<Self, Memory>
        ensures ends { IfOk result (λ c. (c.ends.items ≡ []) × (count ≤ c.ends.spare)) }
        ensures sent { IfOk result (λ c. (c.sent.items ≡ []) × (count ≤ vec_capacity c.sent)) }
        ensures lists { IfOk result (λ c. (c.lists.items ≡ []) × (count ≤ c.lists.spare)) }
        ensures sources { IfOk result (λ c. (c.sources.items ≡ []) × (count ≤ vec_capacity c.sources)) }
        ensures wires { IfOk result (λ c. (c.wires.items ≡ []) × (wires ≤ vec_capacity c.wires)) }
    {
        Ok(Results {
            ends: Ends::with_room(alloc, count)?,
            sent: Vec::with_capacity(alloc, count)?,
            lists: SessionSeats::with_room(alloc, count)?,
            sources: Vec::with_capacity(alloc, count)?,
            wires: Vec::with_capacity(alloc, wires)?,
        })
    }
}

/// All that the sessions leave, and behind their wires those that nobody used. Their seats go into one.
pub(crate) fn bring_in<N: BookName, P: PoolName, S: Source + Drop, W: Drop>(
    pool: &Pool<P>,
    main: &mut PoolSeat<P>,
    dones: Vec<FinishedJob<N, P, S, W>>,
    past: IntoIter<W>,
    results: Results<N, S, W>,
) -> Results<N, S, W>
    requires ends { (results.ends.items ≡ []) × (length dones.items ≤ results.ends.spare) }
    requires sent { (results.sent.items ≡ []) × (length dones.items ≤ vec_capacity results.sent) }
    requires lists { (results.lists.items ≡ []) × (length dones.items ≤ results.lists.spare) }
    requires sources { (results.sources.items ≡ []) × (length dones.items ≤ vec_capacity results.sources) }
    requires wires { (results.wires.items ≡ [])
        × (length dones.items + length (into_iter_items past) ≤ vec_capacity results.wires) }
    ensures ends { result.ends.items ≡ map (λ d. d.account.end) dones.items }
    ensures sent { result.sent.items ≡ map (λ d. d.account.sent) dones.items }
    ensures lists { result.lists.items ≡ map (λ d. d.account.mine) dones.items }
    ensures names { map (λ s. S.name s) result.sources.items ≡ map (λ d. d.account.pump.origin.name) dones.items }
    ensures wholes { map (λ s. S.whole s) result.sources.items ≡ map (λ d. d.account.pump.origin.whole) dones.items }
    ensures givens { map (λ s. S.given s) result.sources.items ≡ map (λ d. d.account.pump.given) dones.items }
    ensures endeds { map (λ s. S.ended s) result.sources.items ≡ map (λ d. d.account.pump.ended) dones.items }
    ensures faults { map (λ s. S.read_faults s) result.sources.items ≡ map (λ d. d.account.pump.faults) dones.items }
    ensures wires { result.wires.items ≡ map (λ d. d.wire) dones.items ++ into_iter_items past }
    ensures wire_room { vec_capacity result.wires ≡ vec_capacity results.wires }
    ensures seats { HasJoined (map (λ d. d.account.seat) dones.items) main.old main.new }
{
    let Results {
        mut ends,
        mut sent,
        mut lists,
        mut sources,
        mut wires,
    } = results;
    for done in dones {
        let FinishedJob {
            account,
            wire,
            dump: _,
        } = done;
        let ServedAccount {
            end,
            seat,
            mine,
            sent: bytes,
            pump,
            dump: _,
        } = account;
        let Ok(()) = ends.push(end) else {
            unreachable!()
        };
        let Ok(()) = lists.push(mine) else {
            unreachable!()
        };
        pool.join(main, seat);
        sources.push_reserved(pump.into_source());
        wires.push_reserved(wire);
        sent.push_reserved(bytes);
    }
    Results {
        ends,
        sent,
        lists,
        sources,
        wires: with_past(wires, past),
    }
}

// Those that nobody used go last.
fn with_past<W: Drop>(wires: Vec<W>, past: IntoIter<W>) -> Vec<W>
    requires { vec_len wires + length (into_iter_items past) ≤ vec_capacity wires }
    ensures items { result.items ≡ wires.items ++ into_iter_items past }
    ensures room { vec_capacity result ≡ vec_capacity wires }
{
    let mut wires = wires;
    for wire in past {
        wires.push_reserved(wire);
    }
    wires
}
