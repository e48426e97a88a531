// Sources are served in what was opened.
ghost use Rattle.std.specs.Prelude.{◌≡◌, ◌≢◌, ◌+◌, ◌<◌, ◌≤◌, [], All, length, map, vec_capacity};
ghost use Rattle.std.specs.List.{range_with_len};
ghost use Rattle.serve_model.specs.Seats.{IsSpare};
ghost use Rattle.flake_base.specs.Histories.{histories};
ghost use Rattle.run_resources.specs.Opened.{HasRunSizes, IsPool, IsBook, IsSessionSlot, pool_sizes};
ghost use Rattle.run_resources.specs.Opened.{dump_credits, dump_wires};
ghost use Rattle.serve_inputs.specs.Dumped.{dump_told};
ghost use Rattle.session_serve.specs.Ran.{AreReads};
ghost use Rattle.serve_inputs.specs.Ran.{RanAll};

use crate::dumped::DumpEnd;
use crate::job::{FinishedJob, ServeJob};
use crate::jobs::{line_up, serve_jobs};
use crate::orders::{ask_first, first_dumped, put_back, split_order};
use crate::results::{Results, bring_in};
use crate::space::Space;
use any_wire::WireCalls;
use command_exec::Shop;
use flake_base::{End, Ends, Journal, Source};
use order_book::BookName;
use pinned_pool::{PoolEnd, PoolName};
use run_resources::{Closed, RunResources, RunSizes, close_all};
use session_pass::Gate;
use std::sync::Wait;
use std::thread::Threads;

/// Room for a run.
pub(crate) type Room<N, P, S, W> = Space<ServeJob<N, P, S, W>, FinishedJob<N, P, S, W>, N, S, W>;

/// What a run leaves. Ends, counts, sources and wires stand at their sources' places.
#[derive(Drop)]
pub struct Served<S, W> {
    pub ends: Ends,
    /// So many bytes of each were put in whole replies; a full count stands still.
    pub sent: Vec<u64>,
    pub journal: Journal,
    pub pool: PoolEnd,
    /// What came of the dump, if one was asked for.
    pub dump: DumpEnd,
    pub sources: Vec<S>,
    pub wires: Vec<W>,
}

/// Serves each source to its end or until memory is wanting, and closes all.
pub(crate) fn serve_opened<
    R: Threads + Wait + Sync,
    N: BookName + Send + Sync,
    P: PoolName + Send + Sync,
    S: Source + Send + Drop,
    G: Gate,
    W: Send + Drop,
    C: WireCalls<W> + Sync,
>(
    rt: &R,
    sizes: &RunSizes,
    workers: u16,
    resources: RunResources<N, P>,
    space: Room<N, P, S, W>,
    sources: Vec<S>,
    wires: Vec<W>,
    gate: &G,
    calls: &C,
) -> Served<S, W>
    requires calls { C.can_put calls.now × C.can_flush calls.now }
    requires workers { (0 < workers) × (workers ≤ 16) }
    requires sized { HasRunSizes (length sources.items) sizes.now }
    requires pool { IsPool (length sources.items) sizes.now P.sizes }
    requires book { IsBook (length sources.items) sizes.now N.sizes }
    requires unread { All (λ s. S.given s ≡ []) sources.items }
    requires wires { length sources.items + dump_wires sizes.now.dump ≤ length wires.items }
    requires main { IsSpare resources.main × (resources.main.credits ≡ 1 + dump_credits sizes.now) }
    requires slots { All (λ d. IsSessionSlot P.sizes d.session d.device.end d.device.failed) resources.slots.items }
    requires numbers { map (λ d. d.session.pass.list.number) resources.slots.items
        ≡ range_with_len 0 (length sources.items) }
    requires threshold { All (λ d. d.session.pass.threshold ≡ sizes.now.threshold) resources.slots.items }
    requires jobs { (space.jobs.items ≡ []) × (length sources.items ≤ vec_capacity space.jobs) }
    requires dones { (space.dones.items ≡ []) × (length sources.items ≤ vec_capacity space.dones) }
    requires ends { (space.results.ends.items ≡ []) × (length sources.items ≤ space.results.ends.spare) }
    requires sent { (space.results.sent.items ≡ []) × (length sources.items ≤ vec_capacity space.results.sent) }
    requires lists { (space.results.lists.items ≡ []) × (length sources.items ≤ space.results.lists.spare) }
    requires room { (space.results.sources.items ≡ []) × (length sources.items ≤ vec_capacity space.results.sources) }
    requires wire_room { (space.results.wires.items ≡ []) × (length wires.items ≤ vec_capacity space.results.wires) }
    ensures ran { RanAll sizes.now.mtu (C.put_may calls.now) (C.flush_may calls.now)
        (pool_sizes (length sources.items) sizes.now) sizes.now.threshold (map (λ s. S.given s) result.sources.items)
        (map (λ s. S.ended s) result.sources.items) result.ends.items result.sent.items
        (histories result.journal.items) result.pool sizes.now.dump (dump_told result.dump) wires.items
        result.wires.items }
    ensures names { map (λ s. S.name s) result.sources.items ≡ map (λ s. S.name s) sources.items }
    ensures wholes { map (λ s. S.whole s) result.sources.items ≡ map (λ s. S.whole s) sources.items }
    ensures shards { length result.journal.items ≡ sizes.now.shards }
    ensures reads { AreReads result.ends.items (map (λ s. S.read_faults s) sources.items)
        (map (λ s. S.read_faults s) result.sources.items) }
    ensures to_the_end { All (λ end. end.end ≢ End.Left) result.ends.items }
{
    let RunResources {
        pool,
        book,
        store,
        mut main,
        slots,
    } = resources;
    let Space {
        alloc,
        jobs,
        dones,
        results,
    } = space;
    let mut wires = wires;
    let count = sources.len();
    let order = split_order(&pool, &mut main, sizes, count, &mut wires);
    let (mut jobs, past) = line_up(alloc, sizes.mtu, slots, sources, wires, jobs);
    ask_first(alloc, &mut jobs, order);
    let shop = Shop {
        pool: &pool,
        book: &book,
        store: &store,
    };
    let mut dones = serve_jobs(rt, alloc, &shop, jobs, dones, workers, gate, calls);
    let dumped = first_dumped(&mut dones);
    let parts = store.into_parts(&pool);
    let Results {
        ends,
        sent,
        lists,
        sources,
        wires,
    } = bring_in(&pool, &mut main, dones, past, results);
    let (dump, wires) = put_back(alloc, &pool, &mut main, dumped, count, wires);
    let Closed { journal, end: pool } = close_all(pool, book, parts, main, lists);
    Served {
        ends,
        sent,
        journal,
        pool,
        dump,
        sources,
        wires,
    }
}
