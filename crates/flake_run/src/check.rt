// The command `check`, over any host.
ghost use Rattle.std.specs.Prelude.{◌≡◌, ◌<◌, [], length};
ghost use Rattle.command_line.specs.Check.{check_of};
ghost use Rattle.command_line.specs.Task.{word_texts};
ghost use Rattle.serve_inputs.specs.Dumped.{dump_told, no_dump};
ghost use Rattle.flake_run.specs.Outside.{LeavesFiles, outside};
ghost use Rattle.flake_run.specs.Outcome.{done, opened_told, source_told};
ghost use Rattle.flake_run.specs.Said.{PrintsStatus};
ghost use Rattle.flake_run.specs.Checked.{Checked, ConcludesBy, IsStatus};

use crate::files::opened_of;
use crate::finding::{Finding, finding_text, found_by};
use crate::outcome::{Outcome, Refusal};
use crate::tell::{refuse, tell};
use check_files::check_named;
use command_line::check_task;
use flake_base::{Failed, Host, Memory, Source, Wire};
use std::alloc::Global;

// Says a text of what was found; answers the status.
fn say<H: Host>(host: &mut H, finding: Finding, text: &[u8]) -> u8
    requires { 0 < length text.now }
    ensures status { IsStatus finding (H.host_told host.old) (H.host_told host.new) result }
    ensures said { PrintsStatus text.now (H.host_told host.old) (H.host_told host.new) }
    ensures files { LeavesFiles (H.host_told host.old) (H.host_told host.new) }
{
    match tell(host, text) {
        Ok(()) => finding.status(),
        Err(Failed) => finding.status_unsaid(),
    }
}

/// Says what was found, and answers that. Where saying it fails, the host has counted it.
pub(crate) fn conclude<H: Host>(
    alloc: Global,
    host: &mut H,
    finding: Finding,
    wires: Vec<Box<dyn Wire>>,
) -> Outcome<H::In>
    ensures files { LeavesFiles (H.host_told host.old) (H.host_told host.new) }
    ensures concluded { ConcludesBy finding (outside (H.host_told host.old) wires.items (λ w. wire_told w))
        (outside (H.host_told host.new) result.wires.items (λ w. wire_told w))
        (done result.status result.detail result.ends.items result.journal.items result.held result.pool []) }
    ensures dump { dump_told result.dump ≡ no_dump }
{
    let Ok(text) = finding_text(alloc, finding) else {
        return refuse(alloc, host, Refusal::Memory, wires);
    };
    let status = say(host, finding, text.as_bytes());
    Outcome::unserved(alloc, status, finding.detail(), wires)
}

/// Checks the files that the words name: opens them, reads each whole, and says whether the replies are those that the
/// journal gives.
pub fn check<H: Host>(
    alloc: Global,
    words: &[String],
    host: &mut H,
    wires: Vec<Box<dyn Wire>>,
) -> Outcome<H::In>
    ensures does { let before = outside (H.host_told host.old) wires.items (λ w. wire_told w) in
        let after = outside (H.host_told host.new) result.wires.items (λ w. wire_told w) in
        let told = opened_told (source_told H.In.name H.In.whole H.In.given H.In.ended H.In.read_faults)
        result.sources.items in
        Checked (check_of (word_texts words.now)) before after
        (done result.status result.detail result.ends.items result.journal.items result.held result.pool told) }
    ensures dump { dump_told result.dump ≡ no_dump }
{
    let task = match check_task(alloc, words) {
        Ok(Some(task)) => task,
        Ok(None) => return refuse(alloc, host, Refusal::BadWords, wires),
        Err(Memory) => return refuse(alloc, host, Refusal::Memory, wires),
    };
    let count = task.files.len();
    let (Ok(room), Ok(places)) = (
        Vec::with_capacity(alloc, count),
        Vec::with_capacity(alloc, count),
    ) else {
        return refuse(alloc, host, Refusal::Memory, wires);
    };
    let (answer, files) = check_named(alloc, host, task.files.as_slice(), room);
    let mut outcome = conclude(alloc, host, found_by(answer), wires);
    outcome.sources = opened_of(files, places);
    outcome
}
