// The command `drive`, over any host and any wires.
ghost use Rattle.std.specs.Prelude.{◌≡◌, ◌<◌, ◌≤◌, [], ◌∷◌, length, map, vec_capacity};
ghost use Rattle.std.specs.List.{AllByRecursion};
ghost use Rattle.run_resources.specs.Opened.{HasRunSizes};
ghost use Rattle.transcript_model.specs.Lines.{held_text};
ghost use Rattle.drive_script.specs.Says.{PrintsText};
ghost use Rattle.drive_inputs.specs.Held.{held_room};
ghost use Rattle.serve_inputs.specs.Dumped.{dump_told, no_dump};
ghost use Rattle.flake_run.specs.Driven.{CameOf};
ghost use Rattle.flake_run.specs.DriveTask.{drive_job_of};
ghost use Rattle.flake_run.specs.Drove.{Drove};
ghost use Rattle.flake_run.specs.Outcome.{IsUntouched, done, opened_told, source_told};
ghost use Rattle.flake_run.specs.Outside.{outside};

use crate::check::conclude;
use crate::driving::drive_by;
use crate::finding::Finding;
use crate::opening::{numbered, numbered_behind, open_files};
use crate::outcome::{Detail, Opened, Outcome, Refusal};
use crate::tell::{drive_status, refuse};
use crate::words::sizes_of;
use command_line::drive_task;
use drive_inputs::{HELD_ROOM, held_line};
use flake_base::{Host, Memory, Source, Wire};
use pin_core::Held;
use run_resources::RunSizes;
use serve_inputs::DumpEnd;
use std::alloc::Global;
use std::sync::Wait;

// Says what is held, unless a say failed before. Answers whether one has failed.
fn say_held<H: Host>(host: &mut H, failed: bool, text: Vec<u8>, held: Held) -> bool
    requires { held_room ≤ vec_capacity text }
    ensures { PrintsText failed result (held_text held.small held.large) (H.host_told host.old) (H.host_told host.new) }
{
    let mut text = text;
    held_line(&mut text, held);
    failed || host.say(text.as_slice()).is_err()
}

// Drives sources by the schedule of another one, and says what is held; or says why they are not driven. The lists have
// room that was taken ahead.
fn drive_opened<R: Wait, H: Host>(
    rt: &R,
    alloc: Global,
    sizes: &RunSizes,
    schedule: H::In,
    sources: Vec<H::In>,
    places: Vec<Opened<H::In>>,
    text: Vec<u8>,
    host: &mut H,
    wires: Vec<Box<dyn Wire>>,
) -> Outcome<H::In>
    requires sized { HasRunSizes (length sources.items) sizes.now }
    requires wires { length sources.items ≤ length wires.items }
    requires places { (places.items ≡ []) × (length sources.items < vec_capacity places) }
    requires text { held_room ≤ vec_capacity text }
    requires unread { AllByRecursion IsUntouched
        (map (source_told H.In.name H.In.whole H.In.given H.In.ended H.In.read_faults) (schedule ∷ sources.items)) }
    ensures does { let before = outside (H.host_told host.old) wires.items (λ w. wire_told w) in
        let after = outside (H.host_told host.new) result.wires.items (λ w. wire_told w) in
        let told = opened_told (source_told H.In.name H.In.whole H.In.given H.In.ended H.In.read_faults)
        result.sources.items in
        CameOf sizes.now (H.In.name schedule ∷ map (λ s. H.In.name s) sources.items)
        (H.In.whole schedule ∷ map (λ s. H.In.whole s) sources.items) before after
        (done result.status result.detail result.ends.items result.journal.items result.held result.pool told) }
    ensures dump { dump_told result.dump ≡ no_dump }
{
    let mut schedule = schedule;
    match drive_by(rt, alloc, sizes, &mut schedule, sources, wires, host) {
        Ok(driven) => {
            let held = driven.pool.held();
            let failed = say_held(host, driven.failed, text, held);
            Outcome {
                status: drive_status(driven.ends.as_slice(), failed),
                detail: Detail::Nothing,
                ends: driven.ends,
                journal: driven.journal,
                held,
                pool: Some(driven.pool),
                dump: DumpEnd::none(alloc),
                sources: numbered_behind(schedule, driven.sources, places),
                wires: driven.wires,
            }
        }
        Err((finding, sources, wires)) => {
            let mut outcome = conclude(alloc, host, finding, wires);
            outcome.sources = numbered_behind(schedule, sources, places);
            outcome
        }
    }
}

/// Drives the files that the words name by the schedule that they name, with the sizes that they ask for, and says the
/// transcript: the replies to a file's requests go to the wire at its place.
pub fn drive<R: Wait, H: Host>(
    rt: &R,
    alloc: Global,
    words: &[String],
    host: &mut H,
    wires: Vec<Box<dyn Wire>>,
) -> Outcome<H::In>
    ensures does { let before = outside (H.host_told host.old) wires.items (λ w. wire_told w) in
        let after = outside (H.host_told host.new) result.wires.items (λ w. wire_told w) in
        let told = opened_told (source_told H.In.name H.In.whole H.In.given H.In.ended H.In.read_faults)
        result.sources.items in
        Drove (drive_job_of words.now) before after
        (done result.status result.detail result.ends.items result.journal.items result.held result.pool told) }
    ensures dump { dump_told result.dump ≡ no_dump }
{
    let task = match drive_task(alloc, words) {
        Ok(Some(task)) => task,
        Ok(None) => return refuse(alloc, host, Refusal::BadWords, wires),
        Err(Memory) => return refuse(alloc, host, Refusal::Memory, wires),
    };
    let count = task.files.len();
    if wires.len() < count - 1 {
        return refuse(alloc, host, Refusal::BadWords, wires);
    }
    let (Ok(room), Ok(places), Ok(text)) = (
        Vec::with_capacity(alloc, count),
        Vec::with_capacity(alloc, count),
        Vec::with_capacity(alloc, HELD_ROOM),
    ) else {
        return refuse(alloc, host, Refusal::Memory, wires);
    };
    match open_files(host, task.files.as_slice(), room) {
        Ok(sources) => {
            let mut sources = sources;
            let schedule = sources.remove(0);
            let sizes = sizes_of(None, &task.sizes);
            drive_opened(
                rt, alloc, &sizes, schedule, sources, places, text, host, wires,
            )
        }
        Err(sources) => {
            let finding = Finding::OpenFault(sources.len() as u16);
            let mut outcome = conclude(alloc, host, finding, wires);
            outcome.sources = numbered(sources, places);
            outcome
        }
    }
}
