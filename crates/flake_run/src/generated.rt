// Generated requests, from the words to what is said.
ghost use Rattle.std.specs.Prelude.{◌≡◌, ◌≤◌, ◌<◌, length, map, IfOk, IfErr};
ghost use Rattle.flake_base.specs.Histories.{histories};
ghost use Rattle.command_line.specs.Task.{word_texts};
ghost use Rattle.command_line.specs.GenerateTask.{IsAllowedGenerated, generated_task_of};
ghost use Rattle.serve_generated.specs.Generated.{IsTooMuch};
ghost use Rattle.serve_inputs.specs.Dumped.{dump_told, no_dump};
ghost use Rattle.flake_run.specs.Outside.{outside};
ghost use Rattle.flake_run.specs.Outcome.{done, opened_told, source_told};
ghost use Rattle.flake_run.specs.Generated.{Generated, IsGeneratedRun};

use crate::boxed::Boxed;
use crate::outcome::{Detail, Outcome, Refusal};
use crate::tell::{refuse, report_total};
use crate::total::sum_of;
use command_line::{GenTask, gen_task};
use flake_base::{Host, Memory, Wire};
use report_text::REPORT_ROOM;
use serve_generated::{GeneratedRefusal, InputSource, serve_generated};
use serve_inputs::{DumpEnd, Served};
use session_pass::Gate;
use std::alloc::Global;
use std::sync::Wait;
use std::thread::Threads;

// Serves the requests of a task; the replies go to the wire at their session's place.
fn serve_requests<R: Threads + Wait + Sync, G: Gate>(
    rt: &R,
    alloc: Global,
    task: &GenTask,
    wires: Vec<Box<dyn Wire>>,
    gate: &G,
) -> Result<Served<InputSource, Box<dyn Wire>>, (GeneratedRefusal, Vec<Box<dyn Wire>>)>
    requires task { IsAllowedGenerated task.now }
    requires wires { task.now.sessions ≤ length wires.items }
    ensures run { IfOk result (λ r. IsGeneratedRun task.now (map (λ s. s.given) r.sources.items)
        (map (λ s. s.ended) r.sources.items) r.ends.items r.sent.items (histories r.journal.items) r.pool
        wires.items r.wires.items (λ w. wire_told w)) }
    ensures shards { IfOk result (λ r. length r.journal.items ≡ 8) }
    ensures ends { IfOk result (λ r. length r.ends.items ≡ task.now.sessions) }
    ensures fits { IfOk result (λ r. IsTooMuch task.now → ⊥) }
    ensures too_much { IfErr result (λ e. e.0 ≡ GeneratedRefusal.TooMuch → IsTooMuch task.now) }
    ensures back { IfErr result (λ e. e.1.items ≡ wires.items) }
{
    serve_generated(rt, alloc, task, wires, gate, &Boxed)
}

/// Serves the requests that the words ask for, and says how many replies they got, of how many bytes, and what is held.
pub fn generate<R: Threads + Wait + Sync, H: Host, G: Gate>(
    rt: &R,
    alloc: Global,
    words: &[String],
    host: &mut H,
    wires: Vec<Box<dyn Wire>>,
    gate: &G,
) -> Outcome<H::In>
    ensures does { let before = outside (H.host_told host.old) wires.items (λ w. wire_told w) in
        let after = outside (H.host_told host.new) result.wires.items (λ w. wire_told w) in
        let told = opened_told (source_told H.In.name H.In.whole H.In.given H.In.ended H.In.read_faults)
        result.sources.items in
        Generated (generated_task_of (word_texts words.now)) before after
        (done result.status result.detail result.ends.items result.journal.items result.held result.pool told) }
    ensures dump { dump_told result.dump ≡ no_dump }
{
    let task = match gen_task(alloc, words) {
        Ok(Some(task)) => task,
        Ok(None) => return refuse(alloc, host, Refusal::BadWords, wires),
        Err(Memory) => return refuse(alloc, host, Refusal::Memory, wires),
    };
    if wires.len() < usize::from(task.sessions) {
        return refuse(alloc, host, Refusal::BadWords, wires);
    }
    let Ok(text) = Vec::with_capacity(alloc, REPORT_ROOM) else {
        return refuse(alloc, host, Refusal::Memory, wires);
    };
    match serve_requests(rt, alloc, &task, wires, gate) {
        Ok(ran) => {
            let held = ran.pool.held();
            let bytes = sum_of(ran.sent.as_slice());
            Outcome {
                status: report_total(host, text, ran.ends.as_slice(), bytes, held),
                detail: Detail::Nothing,
                ends: ran.ends,
                journal: ran.journal,
                held,
                pool: Some(ran.pool),
                dump: DumpEnd::none(alloc),
                sources: Vec::new(alloc),
                wires: ran.wires,
            }
        }
        Err((GeneratedRefusal::TooMuch, wires)) => refuse(alloc, host, Refusal::BadWords, wires),
        Err((GeneratedRefusal::Memory, wires)) => refuse(alloc, host, Refusal::Memory, wires),
    }
}
