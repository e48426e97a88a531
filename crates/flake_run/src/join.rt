// The command `join`, over any host and any wires.
ghost use Rattle.std.specs.Prelude.{◌≡◌, ◌<◌, ◌≤◌, ◌∷◌, [], if◌then◌else◌, length, vec_capacity};
ghost use Rattle.std.specs.List.{AllByRecursion};
ghost use Rattle.mtu_frames.specs.Joining.{IsWhole, replies};
ghost use Rattle.command_line.specs.Join.{join_of, shown_join};
ghost use Rattle.command_line.specs.Task.{word_texts};
ghost use Rattle.serve_inputs.specs.Dumped.{dump_told, no_dump};
ghost use Rattle.flake_run.specs.Joined.{CameOfFrames, IsPutOnFirst, Joined, finding_of};
ghost use Rattle.flake_run.specs.Outcome.{GaveFront, IsUntouched, done, opened_told, source_told, sources_of};
ghost use Rattle.flake_run.specs.Outside.{outside};

use crate::check::conclude;
use crate::finding::Finding;
use crate::outcome::{Detail, Opened, Outcome, Refusal, SERVED, WRITE_FAULT};
use crate::tell::refuse;
use command_line::{JoinTask, join_task};
use flake_base::{Failed, Host, Memory, Source, Wire};
use join_files::{JoinError, join_source, put_joined};
use mtu_frames::Joiner;
use std::alloc::Global;

// What it is that replies are not put together. The file has number 0.
fn finding_of(error: JoinError) -> Finding
    ensures { result ≡ finding_of error }
{
    match error {
        JoinError::ReadFault => Finding::ReadFault(0),
        JoinError::TooLarge => Finding::TooLarge(0),
        JoinError::BadFrame { number } => Finding::BadFrame(number),
        JoinError::Missing { call, frame } => Finding::Missing { call, frame },
        JoinError::Memory => Finding::Memory,
    }
}

// Puts the replies on the first wire; answers whether that failed.
fn put_on_first(joiner: &Joiner, wires: &mut Vec<Box<dyn Wire>>) -> bool
    requires whole { IsWhole joiner.now.frames joiner.now.calls }
    requires first { 0 < length wires.old.items }
    ensures { IsPutOnFirst result (replies joiner.now.frames joiner.now.calls) wires.old.items wires.new.items
        (λ w. wire_told w) }
{
    !put_joined(joiner, &mut *wires[0])
}

// The status where replies were put.
fn put_status(failed: bool) -> u8
    ensures { result ≡ (if failed then 5 else 0) }
{
    if failed { WRITE_FAULT } else { SERVED }
}

// The only source, in room that was taken ahead.
fn only_source<S: Source + Drop>(source: S, room: Vec<Opened<S>>) -> Vec<Opened<S>>
    requires { (room.items ≡ []) × (0 < vec_capacity room) }
    ensures items { result.items ≡ record { file = 0; source = source } ∷ [] }
    ensures fronts { AllByRecursion GaveFront (sources_of (opened_told (source_told S.name S.whole S.given S.ended
        S.read_faults) result.items)) }
{
    let mut sources = room;
    let _ = sources.push(Opened { file: 0, source });
    sources
}

// Puts the replies together whose frames a source has, or says why they are not. The list has room that was taken
// ahead.
fn join_opened<H: Host>(
    alloc: Global,
    task: &JoinTask<'_>,
    source: H::In,
    places: Vec<Opened<H::In>>,
    host: &mut H,
    wires: Vec<Box<dyn Wire>>,
) -> Outcome<H::In>
    requires mtu { (64 ≤ task.now.mtu) × (task.now.mtu ≤ 9216) }
    requires wires { 0 < length wires.items }
    requires places { (places.items ≡ []) × (0 < vec_capacity places) }
    requires unread { IsUntouched (source_told H.In.name H.In.whole H.In.given H.In.ended H.In.read_faults source) }
    ensures does { let before = outside (H.host_told host.old) wires.items (λ w. wire_told w) in
        let after = outside (H.host_told host.new) result.wires.items (λ w. wire_told w) in
        let told = opened_told (source_told H.In.name H.In.whole H.In.given H.In.ended H.In.read_faults)
        result.sources.items in
        CameOfFrames (shown_join task.now) (H.In.name source) (H.In.whole source) before after
        (done result.status result.detail result.ends.items result.journal.items result.held result.pool told) }
    ensures dump { dump_told result.dump ≡ no_dump }
{
    let mut source = source;
    match join_source(alloc, &mut source, task.mtu, task.calls) {
        Ok(joiner) => {
            let mut wires = wires;
            let failed = put_on_first(&joiner, &mut wires);
            let mut outcome = Outcome::unserved(alloc, put_status(failed), Detail::Nothing, wires);
            outcome.sources = only_source(source, places);
            outcome
        }
        Err(error) => {
            let mut outcome = conclude(alloc, host, finding_of(error), wires);
            outcome.sources = only_source(source, places);
            outcome
        }
    }
}

/// Puts the replies together whose frames the file has that the words name, and puts them on the first wire.
pub fn join<H: Host>(
    alloc: Global,
    words: &[String],
    host: &mut H,
    wires: Vec<Box<dyn Wire>>,
) -> Outcome<H::In>
    ensures does { let before = outside (H.host_told host.old) wires.items (λ w. wire_told w) in
        let after = outside (H.host_told host.new) result.wires.items (λ w. wire_told w) in
        let told = opened_told (source_told H.In.name H.In.whole H.In.given H.In.ended H.In.read_faults)
        result.sources.items in
        Joined (join_of (word_texts words.now)) before after
        (done result.status result.detail result.ends.items result.journal.items result.held result.pool told) }
    ensures dump { dump_told result.dump ≡ no_dump }
{
    let task = match join_task(alloc, words) {
        Ok(Some(task)) => task,
        Ok(None) => return refuse(alloc, host, Refusal::BadWords, wires),
        Err(Memory) => return refuse(alloc, host, Refusal::Memory, wires),
    };
    if wires.is_empty() {
        return refuse(alloc, host, Refusal::BadWords, wires);
    }
    let Ok(places) = Vec::with_capacity(alloc, 1) else {
        return refuse(alloc, host, Refusal::Memory, wires);
    };
    match host.open(task.file) {
        Ok(source) => join_opened(alloc, &task, source, places, host, wires),
        Err(Failed) => {
            let mut outcome = conclude(alloc, host, Finding::OpenFault(0), wires);
            outcome.sources = places;
            outcome
        }
    }
}
