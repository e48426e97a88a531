// Some sources, from nothing to nothing.
ghost use Rattle.std.specs.Prelude.{◌≡◌, ◌≢◌, ◌+◌, ◌<◌, ◌≤◌, [], All, length, map, IfOk, IfErr};
ghost use Rattle.flake_base.specs.Histories.{histories};
ghost use Rattle.run_resources.specs.Opened.{HasRunSizes, IsPool, IsBook, dump_wires, pool_sizes};
ghost use Rattle.session_serve.specs.Ran.{AreReads};
ghost use Rattle.serve_inputs.specs.Dumped.{dump_told};
ghost use Rattle.serve_inputs.specs.Ran.{RanAll};

use crate::serving::{Room, Served, serve_opened};
use any_wire::WireCalls;
use flake_base::{End, Source};
use order_book::BookName;
use pinned_pool::PoolName;
use run_resources::{RunBlanks, RunSizes, open_resources};
use session_pass::Gate;
use std::alloc::Global;
use std::marker::Brand;
use std::sync::Wait;
use std::thread::Threads;

// The names of pool and book are the caller's pick.
fn serve_named<
    R: Threads + Wait + Sync,
    N: BookName + Send + Sync,
    P: PoolName + Send + Sync,
    S: Source + Send + Drop,
    G: Gate,
    W: Send + Drop,
    C: WireCalls<W> + Sync,
>(
    rt: &R,
    alloc: Global,
    sizes: &RunSizes,
    workers: u16,
    blanks: RunBlanks,
    sources: Vec<S>,
    wires: Vec<W>,
    gate: &G,
    calls: &C,
) -> Result<Served<S, W>, (Vec<S>, Vec<W>)>
    requires calls { C.can_put calls.now × C.can_flush calls.now }
    requires sized { HasRunSizes (length sources.items) sizes.now }
    requires workers { (0 < workers) × (workers ≤ 16) }
    requires unread { All (λ s. S.given s ≡ []) sources.items }
    requires wires { length sources.items + dump_wires sizes.now.dump ≤ length wires.items }
    requires pool { (P.table ≡ blanks.pool.table) × (P.sizes ≡ blanks.pool.sizes)
        × IsPool (length sources.items) sizes.now P.sizes }
    requires book { (N.table ≡ blanks.book.table) × (N.sizes ≡ blanks.book.sizes)
        × IsBook (length sources.items) sizes.now N.sizes }
    ensures ran { IfOk result (λ r. RanAll sizes.now.mtu (C.put_may calls.now) (C.flush_may calls.now)
        (pool_sizes (length sources.items) sizes.now) sizes.now.threshold (map (λ s. S.given s) r.sources.items)
        (map (λ s. S.ended s) r.sources.items) r.ends.items r.sent.items (histories r.journal.items) r.pool
        sizes.now.dump (dump_told r.dump) wires.items r.wires.items) }
    ensures names { IfOk result (λ r. map (λ s. S.name s) r.sources.items ≡ map (λ s. S.name s) sources.items) }
    ensures wholes { IfOk result (λ r. map (λ s. S.whole s) r.sources.items ≡ map (λ s. S.whole s) sources.items) }
    ensures shards { IfOk result (λ r. length r.journal.items ≡ sizes.now.shards) }
    ensures reads { IfOk result (λ r. AreReads r.ends.items (map (λ s. S.read_faults s) sources.items)
        (map (λ s. S.read_faults s) r.sources.items)) }
    ensures to_the_end { IfOk result (λ r. All (λ end. end.end ≢ End.Left) r.ends.items) }
    ensures refused { IfErr result (λ e. (e.0.items ≡ sources.items) × (e.1.items ≡ wires.items)) }
{
    let RunBlanks { pool, book } = blanks;
    let Ok(space) = Room::<N, P, S, W>::taken(alloc, sources.len(), wires.len()) else {
        return Err((sources, wires));
    };
    let count = sources.len();
    let spread = sizes.spread(count);
    let Ok(resources) = open_resources::<N, P>(alloc, sizes, count, spread, pool, book) else {
        return Err((sources, wires));
    };
    Ok(serve_opened(
        rt, sizes, workers, resources, space, sources, wires, gate, calls,
    ))
}

/// Serves the requests of each source, of which nothing was read, to its end, or until memory is wanting, by so many
/// workers, and puts the replies on its wire. The dump that the sizes ask for goes to the wire behind these; wires past
/// them come back as they are. Where memory is wanting before anything is read, the sources and the wires come back.
pub fn serve_inputs<
    R: Threads + Wait + Sync,
    S: Source + Send + Drop,
    G: Gate,
    W: Send + Drop,
    C: WireCalls<W> + Sync,
>(
    rt: &R,
    alloc: Global,
    sizes: &RunSizes,
    workers: u16,
    sources: Vec<S>,
    wires: Vec<W>,
    gate: &G,
    calls: &C,
) -> Result<Served<S, W>, (Vec<S>, Vec<W>)>
    requires calls { C.can_put calls.now × C.can_flush calls.now }
    requires sized { HasRunSizes (length sources.items) sizes.now }
    requires workers { (0 < workers) × (workers ≤ 16) }
    requires unread { All (λ s. S.given s ≡ []) sources.items }
    requires wires { length sources.items + dump_wires sizes.now.dump ≤ length wires.items }
    ensures ran { IfOk result (λ r. RanAll sizes.now.mtu (C.put_may calls.now) (C.flush_may calls.now)
        (pool_sizes (length sources.items) sizes.now) sizes.now.threshold (map (λ s. S.given s) r.sources.items)
        (map (λ s. S.ended s) r.sources.items) r.ends.items r.sent.items (histories r.journal.items) r.pool
        sizes.now.dump (dump_told r.dump) wires.items r.wires.items) }
    ensures names { IfOk result (λ r. map (λ s. S.name s) r.sources.items ≡ map (λ s. S.name s) sources.items) }
    ensures wholes { IfOk result (λ r. map (λ s. S.whole s) r.sources.items ≡ map (λ s. S.whole s) sources.items) }
    ensures shards { IfOk result (λ r. length r.journal.items ≡ sizes.now.shards) }
    ensures reads { IfOk result (λ r. AreReads r.ends.items (map (λ s. S.read_faults s) sources.items)
        (map (λ s. S.read_faults s) r.sources.items)) }
    ensures to_the_end { IfOk result (λ r. All (λ end. end.end ≢ End.Left) r.ends.items) }
    ensures refused { IfErr result (λ e. (e.0.items ≡ sources.items) × (e.1.items ≡ wires.items)) }
{
    let Ok(blanks) = RunBlanks::open(alloc, sizes, sources.len()) else {
        return Err((sources, wires));
    };
    serve_named::<R, Brand, Brand, S, G, W, C>(
        rt, alloc, sizes, workers, blanks, sources, wires, gate, calls,
    )
}
