// Sources that are driven by a schedule, to the first wires.
ghost use Rattle.std.specs.Prelude.{◌≡◌, ◌<◌, ◌≤◌, [], All, IfErr, IfOk, OnErr, OnOk, length, map};
ghost use Rattle.schedule_text.specs.Text.{line_session};
ghost use Rattle.run_resources.specs.Opened.{HasRunSizes, pool_sizes};
ghost use Rattle.session_serve.specs.Ran.{AreReads};
ghost use Rattle.flake_base.specs.Histories.{histories};
ghost use Rattle.flake_run.specs.Driven.{IsDrivenBy, IsDrivenRun};
ghost use Rattle.flake_run.specs.Schedule.{IsUndriven};

use crate::boxed::Boxed;
use crate::finding::Finding;
use crate::schedule::schedule_in;
use drive_inputs::{DrivenRun, drive_inputs};
use flake_base::{Host, Source, Wire};
use run_resources::RunSizes;
use schedule_text::Line;
use std::alloc::Global;
use std::sync::Wait;

/// Drives each source by the schedule's lines, and says the transcript; the replies go to the wire at its place. Where
/// memory is wanting before the first read all comes back.
fn drive_sources<R: Wait, S: Source + Drop, H: Host>(
    rt: &R,
    alloc: Global,
    sizes: &RunSizes,
    schedule: &[Line],
    sources: Vec<S>,
    wires: Vec<Box<dyn Wire>>,
    host: &mut H,
) -> Result<DrivenRun<S, Box<dyn Wire>>, (Vec<S>, Vec<Box<dyn Wire>>)>
    requires sized { HasRunSizes (length sources.items) sizes.now }
    requires wires { length sources.items ≤ length wires.items }
    requires there { All (λ line. line_session line < length sources.items) schedule.now }
    requires unread { All (λ s. S.given s ≡ []) sources.items }
    ensures run { IfOk result (λ r. IsDrivenRun (pool_sizes (length sources.items) sizes.now) sizes.now.ring
        sizes.now.threshold schedule.now r.failed (map (λ s. S.given s) r.sources.items)
        (map (λ s. S.ended s) r.sources.items) r.ends.items (histories r.journal.items) r.pool wires.items r.wires.items
        (λ w. wire_told w) (H.host_told host.old) (H.host_told host.new)) }
    ensures names { IfOk result (λ r. map (λ s. S.name s) r.sources.items ≡ map (λ s. S.name s) sources.items) }
    ensures wholes { IfOk result (λ r. map (λ s. S.whole s) r.sources.items ≡ map (λ s. S.whole s) sources.items) }
    ensures reads { IfOk result (λ r. AreReads r.ends.items (map (λ s. S.read_faults s) sources.items)
        (map (λ s. S.read_faults s) r.sources.items)) }
    ensures shards { IfOk result (λ r. length r.journal.items ≡ sizes.now.shards) }
    ensures back { IfErr result (λ e. (e.0.items ≡ sources.items) × (e.1.items ≡ wires.items)) }
    ensures silent { OnErr result (H.host_told host.new ≡ H.host_told host.old) }
{
    drive_inputs(rt, alloc, sizes, schedule, sources, wires, host, &Boxed)
}

/// Reads the schedule of a source, and drives the others by it; or says why that is not done, and all comes back.
pub fn drive_by<R: Wait, S: Source + Drop, H: Host>(
    rt: &R,
    alloc: Global,
    sizes: &RunSizes,
    schedule: &mut S,
    sources: Vec<S>,
    wires: Vec<Box<dyn Wire>>,
    host: &mut H,
) -> Result<DrivenRun<S, Box<dyn Wire>>, (Finding, Vec<S>, Vec<Box<dyn Wire>>)>
    requires sized { HasRunSizes (length sources.items) sizes.now }
    requires wires { length sources.items ≤ length wires.items }
    requires asked { S.given schedule.old ≡ [] }
    requires unread { All (λ s. S.given s ≡ []) sources.items }
    ensures run { IfOk result (λ r. IsDrivenBy sizes.now (S.given schedule.new) (S.ended schedule.new) r.failed
        (map (λ s. S.given s) r.sources.items) (map (λ s. S.ended s) r.sources.items) r.ends.items
        (histories r.journal.items) r.pool wires.items r.wires.items (λ w. wire_told w) (H.host_told host.old)
        (H.host_told host.new)) }
    ensures names { IfOk result (λ r. map (λ s. S.name s) r.sources.items ≡ map (λ s. S.name s) sources.items) }
    ensures wholes { IfOk result (λ r. map (λ s. S.whole s) r.sources.items ≡ map (λ s. S.whole s) sources.items) }
    ensures reads { IfOk result (λ r. AreReads r.ends.items (map (λ s. S.read_faults s) sources.items)
        (map (λ s. S.read_faults s) r.sources.items)) }
    ensures shards { IfOk result (λ r. length r.journal.items ≡ sizes.now.shards) }
    ensures calm { OnOk result (S.read_faults schedule.new ≡ S.read_faults schedule.old) }
    ensures undriven { IfErr result (λ e. IsUndriven e.0 (length sources.items) (S.given schedule.new)
        (S.ended schedule.new) (S.read_faults schedule.old) (S.read_faults schedule.new)) }
    ensures name { S.name schedule.new ≡ S.name schedule.old }
    ensures whole { S.whole schedule.new ≡ S.whole schedule.old }
    ensures back { IfErr result (λ e. (e.1.items ≡ sources.items) × (e.2.items ≡ wires.items)) }
    ensures silent { OnErr result (H.host_told host.new ≡ H.host_told host.old) }
{
    let lines = match schedule_in(alloc, schedule, sources.len() as u16) {
        Ok(lines) => lines,
        Err(finding) => return Err((finding, sources, wires)),
    };
    match drive_sources(rt, alloc, sizes, lines.as_slice(), sources, wires, host) {
        Ok(driven) => Ok(driven),
        Err((sources, wires)) => Err((Finding::Memory, sources, wires)),
    }
}
