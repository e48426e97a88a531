// Sources that are served to the first wires.
ghost use Rattle.std.specs.Prelude.{◌≡◌, ◌≢◌, ◌+◌, ◌<◌, ◌≤◌, [], length, map, All, IfOk, IfErr};
ghost use Rattle.flake_base.specs.Histories.{histories};
ghost use Rattle.flake_run.specs.Serving.{IsDumpingRun};
ghost use Rattle.run_resources.specs.Opened.{HasRunSizes, dump_wires, pool_sizes};
ghost use Rattle.session_serve.specs.Ran.{AreReads};
ghost use Rattle.serve_inputs.specs.Dumped.{dump_told};

use crate::boxed::Boxed;
use flake_base::{End, Source, Wire};
use serve_inputs::{RunSizes, Served, serve_inputs};
use session_pass::Gate;
use std::alloc::Global;
use std::sync::Wait;
use std::thread::Threads;

/// Serves the requests of each source, to its end or until memory is wanting; the replies go to the wire at its place,
/// and a dump to the wire behind these.
/// Where memory is wanting before the first read all comes back.
pub fn serve_sources<R: Threads + Wait + Sync, S: Source + Send + Drop, G: Gate>(
    rt: &R,
    alloc: Global,
    sizes: &RunSizes,
    workers: u16,
    sources: Vec<S>,
    wires: Vec<Box<dyn Wire>>,
    gate: &G,
) -> Result<Served<S, Box<dyn Wire>>, (Vec<S>, Vec<Box<dyn Wire>>)>
    requires sized { HasRunSizes (length sources.items) sizes.now }
    requires workers { (0 < workers) × (workers ≤ 16) }
    requires wires { length sources.items + dump_wires sizes.now.dump ≤ length wires.items }
    requires unread { All (λ s. S.given s ≡ []) sources.items }
    ensures run { IfOk result (λ r. IsDumpingRun (pool_sizes (length sources.items) sizes.now)
        sizes.now.threshold (map (λ s. S.given s) r.sources.items) (map (λ s. S.ended s) r.sources.items) r.ends.items
        (histories r.journal.items) r.pool sizes.now.dump sizes.now.mtu (dump_told r.dump) wires.items r.wires.items
        (λ w. wire_told w)) }
    ensures names { IfOk result (λ r. map (λ s. S.name s) r.sources.items ≡ map (λ s. S.name s) sources.items) }
    ensures wholes { IfOk result (λ r. map (λ s. S.whole s) r.sources.items ≡ map (λ s. S.whole s) sources.items) }
    ensures reads { IfOk result (λ r. AreReads r.ends.items (map (λ s. S.read_faults s) sources.items)
        (map (λ s. S.read_faults s) r.sources.items)) }
    ensures to_the_end { IfOk result (λ r. All (λ end. end.end ≢ End.Left) r.ends.items) }
    ensures shards { IfOk result (λ r. length r.journal.items ≡ sizes.now.shards) }
    ensures sources { IfOk result (λ r. length r.sources.items ≡ length sources.items) }
    ensures ends { IfOk result (λ r. length r.ends.items ≡ length sources.items) }
    ensures back { IfErr result (λ e. (e.0.items ≡ sources.items) × (e.1.items ≡ wires.items)) }
{
    serve_inputs(rt, alloc, sizes, workers, sources, wires, gate, &Boxed)
}
