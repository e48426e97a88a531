// The whole program, over any host and any wires.
ghost use Rattle.flake_run.specs.Does.{RunDoes};
ghost use Rattle.serve_inputs.specs.Dumped.{dump_told};
ghost use Rattle.flake_run.specs.Outcome.{done_with, opened_told, source_told};
ghost use Rattle.flake_run.specs.Outside.{outside};

use crate::check::check;
use crate::drive::drive;
use crate::generated::generate;
use crate::join::join;
use crate::outcome::Outcome;
use crate::serve::serve;
use command_line::{CommandName, command_name};
use flake_base::{Host, Source, Wire};
use session_pass::Gate;
use std::alloc::Global;
use std::sync::Wait;
use std::thread::Threads;

/// Does what the first word names: `serve` serves the files that the words name, with the sizes and by as many workers
/// as they ask for, and the replies to a file's requests go to the wire at its place, and the dump that they ask for to
/// the wire behind these; `frames` does so with the replies as frames; `drive` serves them as a schedule asks, and says
/// what happens; `check` judges replies by a journal; `gen` serves requests that are generated from a number; `join`
/// puts replies together from their frames.
pub fn run<R: Threads + Wait + Sync, H: Host, G: Gate>(
    rt: &R,
    alloc: Global,
    words: &[String],
    host: &mut H,
    wires: Vec<Box<dyn Wire>>,
    gate: &G,
) -> Outcome<H::In>
    ensures { let before = outside (H.host_told host.old) wires.items (λ w. wire_told w) in
        let after = outside (H.host_told host.new) result.wires.items (λ w. wire_told w) in
        let told = opened_told (source_told H.In.name H.In.whole H.In.given H.In.ended H.In.read_faults)
        result.sources.items in
        RunDoes words.now before after (done_with (dump_told result.dump) result.status result.detail result.ends.items
        result.journal.items result.held result.pool told) }
{
    match command_name(words) {
        CommandName::Serve => serve(rt, alloc, words, host, wires, gate),
        CommandName::Frames => serve(rt, alloc, words, host, wires, gate),
        CommandName::Check => check(alloc, words, host, wires),
        CommandName::Drive => drive(rt, alloc, words, host, wires),
        CommandName::Gen => generate(rt, alloc, words, host, wires, gate),
        CommandName::Join => join(alloc, words, host, wires),
    }
}
