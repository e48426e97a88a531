// What is said.
ghost use Rattle.std.specs.Prelude.{◌≡◌, ◌≢◌, ◌<◌, ◌≤◌, ◌⊎◌, ◌||◌, ℕ, Bool, length, true, false, vec_capacity};
ghost use Rattle.std.specs.List.{list_any};
ghost use Rattle.flake_base.specs.Causes.{Rose, HasCause};
ghost use Rattle.serve_inputs.specs.Dumped.{dump_told, no_dump};
ghost use Rattle.report_text.specs.declared.dump.DumpLine.TheVariants.{Untaken};
ghost use Rattle.flake_run.specs.Dumping.{dump_line_of, line_failed, lines_failed};
ghost use Rattle.flake_run.specs.Causes.{status_by, highest_by};
ghost use Rattle.flake_run.specs.Driven.{some_put_failed, status_with};
ghost use Rattle.flake_run.specs.Generated.{replies_in};
ghost use Rattle.flake_run.specs.Outside.{LeavesFiles, outside};
ghost use Rattle.flake_run.specs.Outcome.{done, opened_told, source_told, ways};
ghost use Rattle.flake_run.specs.Refusals.{IsNumbered, RunRefused};
ghost use Rattle.flake_run.specs.Said.{PrintsStatus, served_text};
ghost use Rattle.flake_base.specs.Histories.{histories};
ghost use Rattle.journal_text.specs.Text.{journal_text_of};
ghost use Rattle.report_text.specs.Report.{report_room, total_line};

use crate::outcome::{
    BAD_SESSION, OUT_OF_MEMORY, Outcome, READ_FAULT, Refusal, SERVED, WRITE_FAULT,
};
use crate::total::replies_in;
use flake_base::{End, Failed, Host, Journal, SessionEnd, Source, Wire};
use pin_core::Held;
use report_text::{DumpLine, put_summary, put_total, say_journal};
use serve_inputs::DumpEnd;
use std::alloc::Global;

/// Says a text.
pub fn tell<H: Host>(host: &mut H, text: &[u8]) -> Result<(), Failed>
    requires { 0 < length text.now }
    ensures said { PrintsStatus text.now (H.host_told host.old) (H.host_told host.new) }
    ensures files { LeavesFiles (H.host_told host.old) (H.host_told host.new) }
    ensures cause { HasCause (H.host_told host.old).say_faults (H.host_told host.new).say_faults result }
{
    host.say(text)
}

/// Says why nothing is served, and answers that. Where saying it fails, the host has counted it.
pub fn refuse<H: Host>(
    alloc: Global,
    host: &mut H,
    refusal: Refusal,
    wires: Vec<Box<dyn Wire>>,
) -> Outcome<H::In>
    requires { IsNumbered refusal }
    ensures does { let before = outside (H.host_told host.old) wires.items (λ w. wire_told w) in
        let after = outside (H.host_told host.new) result.wires.items (λ w. wire_told w) in
        let told = opened_told (source_told H.In.name H.In.whole H.In.given H.In.ended H.In.read_faults)
        result.sources.items in
        RunRefused refusal before after
        (done result.status result.detail result.ends.items result.journal.items result.held result.pool told) }
    ensures dump { dump_told result.dump ≡ no_dump }
{
    let _ = tell(host, refusal.text().as_bytes());
    Outcome::unserved(alloc, refusal.status(), refusal.detail(), wires)
}

// The status of a session that ended so, where nothing else failed.
fn status_by_end(end: End) -> u8
    ensures { result ≡ status_by end }
{
    match end {
        End::Clean | End::Left => SERVED,
        End::Protocol { .. } | End::Truncated { .. } | End::TooLong => BAD_SESSION,
        End::ReadFault => READ_FAULT,
        End::Memory => OUT_OF_MEMORY,
    }
}

// The highest of the sessions' statuses.
fn status_by_ends(ends: &[SessionEnd]) -> u8
    ensures highest { result ≡ highest_by (ways ends.now) }
    ensures statuses { (result ≡ 0) ⊎ (result ≡ 3) ⊎ (result ≡ 4) ⊎ (result ≡ 6) }
{
    let mut status = SERVED;
    for end in ends {
        status = status.max(status_by_end(end.end));
    }
    status
}

// Whether a put on a session's wire failed.
fn some_failed(ends: &[SessionEnd]) -> bool
    ensures { result ≡ list_any (λ end. end.failed) ends.now }
{
    ends.iter().any(|end| end.failed)
}

// Says the text of a journal.
fn tell_journal<H: Host>(host: &mut H, room: &mut Vec<u8>, journal: &Journal) -> Result<(), Failed>
    requires { report_room ≤ vec_capacity room.old }
    ensures said { PrintsStatus (journal_text_of (histories journal.now.items)) (H.host_told host.old)
        (H.host_told host.new) }
    ensures files { LeavesFiles (H.host_told host.old) (H.host_told host.new) }
    ensures cause { HasCause (H.host_told host.old).say_faults (H.host_told host.new).say_faults result }
{
    say_journal(host, room, journal)
}

/// What is said of a dump, if it was asked for.
pub fn dump_line(asked: Option<u32>, dump: &DumpEnd) -> DumpLine
    ensures { result ≡ dump_line_of asked (dump_told dump.now) }
{
    match asked {
        None => DumpLine::Unasked,
        Some(_) if dump.taken => DumpLine::Written {
            bytes: dump.bytes,
            failed: dump.failed,
        },
        Some(_) => DumpLine::Untaken,
    }
}

// Says the journal, or how each session ended, what came of the dump, and what is held.
fn tell_served<H: Host>(
    host: &mut H,
    room: Vec<u8>,
    shows_journal: bool,
    journal: &Journal,
    ends: &[SessionEnd],
    dump: DumpLine,
    held: Held,
) -> Result<(), Failed>
    requires room { report_room ≤ vec_capacity room }
    requires few { length ends.now ≤ 16 }
    ensures said { PrintsStatus (served_text shows_journal (histories journal.now.items) ends.now dump held)
        (H.host_told host.old) (H.host_told host.new) }
    ensures files { LeavesFiles (H.host_told host.old) (H.host_told host.new) }
    ensures cause { HasCause (H.host_told host.old).say_faults (H.host_told host.new).say_faults result }
{
    let mut room = room;
    if shows_journal {
        return tell_journal(host, &mut room, journal);
    }
    put_summary(&mut room, ends, dump, held);
    tell(host, room.as_slice())
}

// Whether a put of a dump failed.
fn dump_failed(dump: DumpLine) -> bool
    ensures { result ≡ list_any (λ (failed : Bool). failed) (line_failed dump) }
{
    match dump {
        DumpLine::Written { bytes: _, failed } => failed,
        DumpLine::Unasked | DumpLine::Untaken => false,
    }
}

// Whether a put of a session failed, or one of a dump.
fn any_put_failed(ends: &[SessionEnd], dump: DumpLine) -> bool
    ensures { result ≡ list_any (λ (failed : Bool). failed) (lines_failed ends.now dump) }
{
    if some_failed(ends) {
        return true;
    }
    dump_failed(dump)
}

// The status of what was served, by whether it was said. Memory was wanting where a dump that was asked for wasn't
// taken.
fn status_of(ends: &[SessionEnd], dump: DumpLine, said: Result<(), Failed>) -> u8
    ensures by_end { (before now : ℕ) → HasCause before now said → result ≢ 5 → result ≢ 6
        → (result ≡ highest_by (ways ends.now))
        × (list_any (λ (failed : Bool). failed) (lines_failed ends.now dump) ≡ false) × (now ≡ before) }
    ensures failed { (before now : ℕ) → HasCause before now said → result ≡ 5 → (highest_by (ways ends.now) ≢ 6)
        × ((list_any (λ (failed : Bool). failed) (lines_failed ends.now dump) ≡ true) ⊎ Rose before now) }
    ensures untaken { dump ≡ Untaken → result ≡ 6 }
    ensures statuses { (result ≡ 0) ⊎ (result ≡ 3) ⊎ (result ≡ 4) ⊎ (result ≡ 5) ⊎ (result ≡ 6) }
{
    let status = status_by_ends(ends);
    let failed = any_put_failed(ends, dump);
    if status == OUT_OF_MEMORY || dump == DumpLine::Untaken {
        return OUT_OF_MEMORY;
    }
    if failed || said.is_err() {
        return WRITE_FAULT;
    }
    status
}

/// Says the journal, or how each session ended and what came of the dump, and answers the status. The room was taken
/// ahead.
pub fn report<H: Host>(
    host: &mut H,
    room: Vec<u8>,
    shows_journal: bool,
    journal: &Journal,
    ends: &[SessionEnd],
    dump: DumpLine,
    held: Held,
) -> u8
    requires room { report_room ≤ vec_capacity room }
    requires few { length ends.now ≤ 16 }
    ensures said { PrintsStatus (served_text shows_journal (histories journal.now.items) ends.now dump held)
        (H.host_told host.old) (H.host_told host.new) }
    ensures files { LeavesFiles (H.host_told host.old) (H.host_told host.new) }
    ensures by_end { result ≢ 5 → result ≢ 6 → (result ≡ highest_by (ways ends.now))
        × (list_any (λ (failed : Bool). failed) (lines_failed ends.now dump) ≡ false)
        × ((H.host_told host.new).say_faults ≡ (H.host_told host.old).say_faults) }
    ensures failed { result ≡ 5 → (highest_by (ways ends.now) ≢ 6)
        × ((list_any (λ (failed : Bool). failed) (lines_failed ends.now dump) ≡ true)
        ⊎ Rose (H.host_told host.old).say_faults (H.host_told host.new).say_faults) }
    ensures untaken { dump ≡ Untaken → result ≡ 6 }
    ensures statuses { (result ≡ 0) ⊎ (result ≡ 3) ⊎ (result ≡ 4) ⊎ (result ≡ 5) ⊎ (result ≡ 6) }
{
    let said = tell_served(host, room, shows_journal, journal, ends, dump, held);
    status_of(ends, dump, said)
}

/// Says how many replies there are, of how many bytes, and what is held, and answers the status. The room was taken
/// ahead.
pub fn report_total<H: Host>(
    host: &mut H,
    room: Vec<u8>,
    ends: &[SessionEnd],
    bytes: u64,
    held: Held,
) -> u8
    requires room { report_room ≤ vec_capacity room }
    requires few { length ends.now ≤ 16 }
    ensures said { PrintsStatus (total_line (replies_in ends.now) bytes held) (H.host_told host.old)
        (H.host_told host.new) }
    ensures files { LeavesFiles (H.host_told host.old) (H.host_told host.new) }
    ensures by_end { result ≢ 5 → result ≢ 6 → (result ≡ highest_by (ways ends.now))
        × (list_any (λ end. end.failed) ends.now ≡ false)
        × ((H.host_told host.new).say_faults ≡ (H.host_told host.old).say_faults) }
    ensures failed { result ≡ 5 → (highest_by (ways ends.now) ≢ 6) × ((list_any (λ end. end.failed) ends.now ≡ true)
        ⊎ Rose (H.host_told host.old).say_faults (H.host_told host.new).say_faults) }
    ensures statuses { (result ≡ 0) ⊎ (result ≡ 3) ⊎ (result ≡ 4) ⊎ (result ≡ 5) ⊎ (result ≡ 6) }
{
    let mut room = room;
    put_total(&mut room, replies_in(ends), bytes, held);
    let said = tell(host, room.as_slice());
    status_of(ends, DumpLine::Unasked, said)
}

/// The status of sessions that were driven, where a say failed or not.
pub fn drive_status(ends: &[SessionEnd], say_failed: bool) -> u8
    ensures { result ≡ status_with (say_failed || some_put_failed ends.now) (highest_by (ways ends.now)) }
{
    let status = status_by_ends(ends);
    if status != OUT_OF_MEMORY && (say_failed || some_failed(ends)) {
        return WRITE_FAULT;
    }
    status
}
