ghost use Rattle.std.specs.Prelude.{◌≡◌, ◌≢◌, ◌<◌, ◌≤◌, All, length, map, IfOk, IfErr, IsErrAnd};
ghost use Rattle.flake_base.specs.Histories.{histories};
ghost use Rattle.command_line.specs.GenerateTask.{IsAllowedGenerated};
ghost use Rattle.serve_generated.specs.Generated.{IsTooMuch, RanGenerated};

use crate::input::InputSource;
use crate::sizes::sizes_for;
use crate::sources::generated_sources;
use any_wire::WireCalls;
use command_line::GenTask;
use serve_inputs::{Served, serve_inputs};
use session_pass::Gate;
use std::alloc::Global;
use std::sync::Wait;
use std::thread::Threads;

/// Why nothing was served.
#[derive(Clone, Copy, Debug, PartialEq, Eq)]
pub enum GeneratedRefusal {
    /// The commands may claim more buffers than a pool can have.
    TooMuch,
    Memory,
}

/// Serves the requests that are generated for a task, by the pool that they need: the replies of a session go to the
/// wire at its place, and wires past the sessions come back as they are.
pub fn serve_generated<R: Threads + Wait + Sync, G: Gate, W: Send + Drop, C: WireCalls<W> + Sync>(
    rt: &R,
    alloc: Global,
    task: &GenTask,
    wires: Vec<W>,
    gate: &G,
    calls: &C,
) -> Result<Served<InputSource, W>, (GeneratedRefusal, Vec<W>)>
    requires calls { C.can_put calls.now × C.can_flush calls.now }
    requires task { IsAllowedGenerated task.now }
    requires wires { task.now.sessions ≤ length wires.items }
    ensures ran { IfOk result (λ r. RanGenerated (C.put_may calls.now) (C.flush_may calls.now)
        task.now (map (λ s. s.given) r.sources.items) (map (λ s. s.ended) r.sources.items) r.ends.items r.sent.items
        (histories r.journal.items) r.pool wires.items r.wires.items) }
    ensures shards { IfOk result (λ r. length r.journal.items ≡ 8) }
    ensures fits { IfOk result (λ r. IsTooMuch task.now → ⊥) }
    ensures too_much { IfErr result (λ e. e.0 ≡ GeneratedRefusal.TooMuch → IsTooMuch task.now) }
    ensures memory { IfErr result (λ e. e.0 ≡ GeneratedRefusal.Memory → IsTooMuch task.now → ⊥) }
    ensures back { IfErr result (λ e. e.1.items ≡ wires.items) }
{
    let Some(sizes) = sizes_for(task) else {
        return Err((GeneratedRefusal::TooMuch, wires));
    };
    let Ok(sources) = generated_sources(alloc, task.number, task.sessions, task.requests) else {
        return Err((GeneratedRefusal::Memory, wires));
    };
    match serve_inputs(rt, alloc, &sizes, task.workers, sources, wires, gate, calls) {
        Ok(served) => Ok(served),
        Err((_, wires)) => Err((GeneratedRefusal::Memory, wires)),
    }
}
