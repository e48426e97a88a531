// The commands `serve` and `frames`, over any host and any wires.
ghost use Rattle.flake_run.specs.Does.{ServeDoes};
ghost use Rattle.serve_inputs.specs.Dumped.{dump_told};
ghost use Rattle.flake_run.specs.Outcome.{done_with, opened_told, source_told};
ghost use Rattle.flake_run.specs.Outside.{outside};
ghost use Rattle.flake_run.specs.Task.{run_task_of};

use crate::opening::{numbered, open_files};
use crate::outcome::{Detail, Outcome, Refusal};
use crate::source::serve_sources;
use crate::tell::{dump_line, refuse, report};
use crate::words::files_task;
use flake_base::{Host, Memory, Source, Wire};
use report_text::REPORT_ROOM;
use session_pass::Gate;
use std::alloc::Global;
use std::sync::Wait;
use std::thread::Threads;

/// Serves the files that the words name, with the sizes and by as many workers as they ask for: the replies to a file's
/// requests go to the wire at its place, as they are or as frames, and the dump that they ask for to the wire behind
/// these.
pub fn serve<R: Threads + Wait + Sync, H: Host, G: Gate>(
    rt: &R,
    alloc: Global,
    words: &[String],
    host: &mut H,
    wires: Vec<Box<dyn Wire>>,
    gate: &G,
) -> Outcome<H::In>
    ensures { let before = outside (H.host_told host.old) wires.items (λ w. wire_told w) in
        let after = outside (H.host_told host.new) result.wires.items (λ w. wire_told w) in
        let told = opened_told (source_told H.In.name H.In.whole H.In.given H.In.ended H.In.read_faults)
        result.sources.items in
        ServeDoes (run_task_of words.now) before after (done_with (dump_told result.dump) result.status result.detail
        result.ends.items result.journal.items result.held result.pool told) }
{
    let task = match files_task(alloc, words) {
        Ok(Some(task)) => task,
        Ok(None) => return refuse(alloc, host, Refusal::BadWords, wires),
        Err(Memory) => return refuse(alloc, host, Refusal::Memory, wires),
    };
    let count = task.files.len();
    if wires.len() < task.wires() {
        return refuse(alloc, host, Refusal::BadWords, wires);
    }
    let (Ok(room), Ok(places), Ok(text)) = (
        Vec::with_capacity(alloc, count),
        Vec::with_capacity(alloc, count),
        Vec::with_capacity(alloc, REPORT_ROOM),
    ) else {
        return refuse(alloc, host, Refusal::Memory, wires);
    };
    let sources = match open_files(host, task.files.as_slice(), room) {
        Ok(sources) => sources,
        Err(sources) => {
            let refusal = Refusal::OpenFault(sources.len() as u16);
            let mut outcome = refuse(alloc, host, refusal, wires);
            outcome.sources = numbered(sources, places);
            return outcome;
        }
    };
    match serve_sources(rt, alloc, &task.sizes, task.workers, sources, wires, gate) {
        Ok(ran) => {
            let held = ran.pool.held();
            Outcome {
                status: report(
                    host,
                    text,
                    task.journal,
                    &ran.journal,
                    ran.ends.as_slice(),
                    dump_line(task.sizes.dump, &ran.dump),
                    held,
                ),
                detail: Detail::Nothing,
                ends: ran.ends,
                journal: ran.journal,
                held,
                pool: Some(ran.pool),
                dump: ran.dump,
                sources: numbered(ran.sources, places),
                wires: ran.wires,
            }
        }
        Err((sources, wires)) => {
            let mut outcome = refuse(alloc, host, Refusal::Memory, wires);
            outcome.sources = numbered(sources, places);
            outcome
        }
    }
}
