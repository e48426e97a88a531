// Some sources and a schedule, from nothing to nothing.
ghost use Rattle.std.specs.Prelude.{◌≡◌, ◌<◌, ◌≤◌, [], All, length, map, IfOk, IfErr, OnErr};
ghost use Rattle.schedule_text.specs.Text.{line_session};
ghost use Rattle.flake_base.specs.Histories.{histories};
ghost use Rattle.run_resources.specs.Opened.{HasRunSizes, IsPool, IsBook, pool_sizes};
ghost use Rattle.session_serve.specs.Ran.{AreReads};
ghost use Rattle.drive_inputs.specs.Drove.{DroveInputs};

use crate::whole::{DrivenRun, Room, drive_opened};
use any_wire::WireCalls;
use flake_base::{Host, Source};
use order_book::BookName;
use pinned_pool::PoolName;
use run_resources::{ClaimSpread, RunBlanks, RunSizes, open_resources};
use schedule_text::Line;
use std::alloc::Global;
use std::marker::Brand;
use std::sync::Wait;

// The names of pool and book are the caller's pick.
fn drive_named<
    R: Wait,
    N: BookName,
    P: PoolName + Send,
    S: Source + Drop,
    H: Host,
    W: Drop,
    C: WireCalls<W>,
>(
    rt: &R,
    alloc: Global,
    sizes: &RunSizes,
    schedule: &[Line],
    blanks: RunBlanks,
    sources: Vec<S>,
    wires: Vec<W>,
    host: &mut H,
    calls: &C,
) -> Result<DrivenRun<S, W>, (Vec<S>, Vec<W>)>
    requires calls { C.can_put calls.now × C.can_flush calls.now }
    requires sized { HasRunSizes (length sources.items) sizes.now }
    requires wires { length sources.items ≤ length wires.items }
    requires there { All (λ line. line_session line < length sources.items) schedule.now }
    requires unread { All (λ s. S.given s ≡ []) sources.items }
    requires pool { (P.table ≡ blanks.pool.table) × (P.sizes ≡ blanks.pool.sizes)
        × IsPool (length sources.items) sizes.now P.sizes }
    requires book { (N.table ≡ blanks.book.table) × (N.sizes ≡ blanks.book.sizes)
        × IsBook (length sources.items) sizes.now N.sizes }
    ensures drove { IfOk result (λ r. DroveInputs (C.put_may calls.now) (C.flush_may calls.now)
        (pool_sizes (length sources.items) sizes.now) sizes.now.ring sizes.now.threshold schedule.now r.failed
        (map (λ s. S.given s) r.sources.items) (map (λ s. S.ended s) r.sources.items) r.ends.items
        (histories r.journal.items) r.pool wires.items r.wires.items (H.host_told host.old) (H.host_told host.new)) }
    ensures names { IfOk result (λ r. map (λ s. S.name s) r.sources.items ≡ map (λ s. S.name s) sources.items) }
    ensures wholes { IfOk result (λ r. map (λ s. S.whole s) r.sources.items ≡ map (λ s. S.whole s) sources.items) }
    ensures shards { IfOk result (λ r. length r.journal.items ≡ sizes.now.shards) }
    ensures reads { IfOk result (λ r. AreReads r.ends.items (map (λ s. S.read_faults s) sources.items)
        (map (λ s. S.read_faults s) r.sources.items)) }
    ensures refused { IfErr result (λ e. (e.0.items ≡ sources.items) × (e.1.items ≡ wires.items)) }
    ensures silent { OnErr result (host.new ≡ host.old) }
{
    let RunBlanks { pool, book } = blanks;
    let Ok(space) = Room::<N, P, S, W>::taken(alloc, sources.len(), wires.len()) else {
        return Err((sources, wires));
    };
    // What is shown has addresses: those that come first.
    let spread = ClaimSpread::TOGETHER;
    let Ok(resources) = open_resources::<N, P>(alloc, sizes, sources.len(), spread, pool, book)
    else {
        return Err((sources, wires));
    };
    Ok(drive_opened(
        rt, sizes, schedule, resources, space, sources, wires, host, calls,
    ))
}

/// Drives the sessions of the sources as a schedule asks, line by line, and says what happened at each, until a say
/// fails; then puts the replies that are left on their wires. Wires past the sources come back as they are. Where
/// memory is wanting before the first line, the sources and the wires come back, and nothing was said.
pub fn drive_inputs<R: Wait, S: Source + Drop, H: Host, W: Drop, C: WireCalls<W>>(
    rt: &R,
    alloc: Global,
    sizes: &RunSizes,
    schedule: &[Line],
    sources: Vec<S>,
    wires: Vec<W>,
    host: &mut H,
    calls: &C,
) -> Result<DrivenRun<S, W>, (Vec<S>, Vec<W>)>
    requires calls { C.can_put calls.now × C.can_flush calls.now }
    requires sized { HasRunSizes (length sources.items) sizes.now }
    requires wires { length sources.items ≤ length wires.items }
    requires there { All (λ line. line_session line < length sources.items) schedule.now }
    requires unread { All (λ s. S.given s ≡ []) sources.items }
    ensures drove { IfOk result (λ r. DroveInputs (C.put_may calls.now) (C.flush_may calls.now)
        (pool_sizes (length sources.items) sizes.now) sizes.now.ring sizes.now.threshold schedule.now r.failed
        (map (λ s. S.given s) r.sources.items) (map (λ s. S.ended s) r.sources.items) r.ends.items
        (histories r.journal.items) r.pool wires.items r.wires.items (H.host_told host.old) (H.host_told host.new)) }
    ensures names { IfOk result (λ r. map (λ s. S.name s) r.sources.items ≡ map (λ s. S.name s) sources.items) }
    ensures wholes { IfOk result (λ r. map (λ s. S.whole s) r.sources.items ≡ map (λ s. S.whole s) sources.items) }
    ensures shards { IfOk result (λ r. length r.journal.items ≡ sizes.now.shards) }
    ensures reads { IfOk result (λ r. AreReads r.ends.items (map (λ s. S.read_faults s) sources.items)
        (map (λ s. S.read_faults s) r.sources.items)) }
    ensures refused { IfErr result (λ e. (e.0.items ≡ sources.items) × (e.1.items ≡ wires.items)) }
    ensures silent { OnErr result (host.new ≡ host.old) }
{
    let Ok(blanks) = RunBlanks::open(alloc, sizes, sources.len()) else {
        return Err((sources, wires));
    };
    drive_named::<R, Brand, Brand, S, H, W, C>(
        rt, alloc, sizes, schedule, blanks, sources, wires, host, calls,
    )
}
