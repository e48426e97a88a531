// What a run answers, as text.
use super::written::add;
use flake_base::{Bytes, End, Journal, SessionEnd, Wire};
use flake_run::{Detail, Outcome};
use journal_text::journal_text;
use serve_inputs::DumpEnd;
use std::alloc::Global;
use std::test::Fail;

fn tell_end(alloc: Global, told: &mut String, end: End) -> Result<(), Fail> {
    match end {
        End::Clean => told.push_str(" clean")?,
        End::Protocol { kind, place } => {
            add(alloc, told, " protocol ", u64::from(kind))?;
            add(alloc, told, " at ", place)?;
        }
        End::Truncated { place } => add(alloc, told, " truncated at ", place)?,
        End::TooLong => told.push_str(" toolong")?,
        End::ReadFault => told.push_str(" readfault")?,
        End::Memory => told.push_str(" memory")?,
        End::Left => told.push_str(" left")?,
    }
    Ok(())
}

fn tell_wire(told: &mut String, failed: bool) -> Result<(), Fail> {
    told.push_str(if failed {
        " wire failed\n"
    } else {
        " wire whole\n"
    })?;
    Ok(())
}

fn tell_ends(alloc: Global, told: &mut String, ends: &[SessionEnd]) -> Result<(), Fail> {
    for (session, ended) in ends.iter().enumerate() {
        add(alloc, told, "session ", session as u64)?;
        tell_end(alloc, told, ended.end)?;
        add(alloc, told, " taken ", ended.taken)?;
        add(alloc, told, " replies ", u64::from(ended.replies))?;
        tell_wire(told, ended.failed)?;
    }
    Ok(())
}

fn tell_byte(alloc: Global, told: &mut String, word: &str, byte: Option<u8>) -> Result<(), Fail> {
    told.push_str(word)?;
    match byte {
        Some(byte) => add(alloc, told, " ", u64::from(byte)),
        None => Ok(told.push_str(" end")?),
    }
}

fn tell_detail(alloc: Global, told: &mut String, detail: Detail) -> Result<(), Fail> {
    match detail {
        Detail::Nothing => Ok(()),
        Detail::File(number) => add(alloc, told, " file ", u64::from(number)),
        Detail::Line(number) => add(alloc, told, " line ", number),
        Detail::Frame(number) => add(alloc, told, " frame ", number),
        Detail::Journal { shard, place } => {
            add(alloc, told, " shard ", u64::from(shard))?;
            add(alloc, told, " place ", place)
        }
        Detail::Missing { call, frame } => {
            add(alloc, told, " call ", u64::from(call))?;
            add(alloc, told, " frame ", u64::from(frame))
        }
        Detail::Differs {
            session,
            place,
            expected,
            found,
        } => {
            add(alloc, told, " session ", u64::from(session))?;
            add(alloc, told, " place ", place)?;
            tell_byte(alloc, told, " expected", expected)?;
            tell_byte(alloc, told, " found", found)
        }
    }
}

// The histories; nothing where there are none.
fn tell_journal(alloc: Global, told: &mut String, journal: &Journal) -> Result<(), Fail> {
    if !journal.is_empty() {
        let text = journal_text(alloc, journal)?;
        told.push_str(str::from_utf8(text.as_slice())?)?;
    }
    Ok(())
}

// The number of each file that was opened.
fn tell_files<S: Drop>(alloc: Global, told: &mut String, outcome: &Outcome<S>) -> Result<(), Fail> {
    for source in outcome.sources.as_slice() {
        add(alloc, told, "file ", u64::from(source.file))?;
        told.push_str(", ")?;
    }
    Ok(())
}

// The dump's points, and how its text was put; nothing where there is none.
fn tell_dump(alloc: Global, told: &mut String, dump: &DumpEnd) -> Result<(), Fail> {
    if !dump.taken && !dump.failed && dump.bytes == 0 && dump.points.is_empty() {
        return Ok(());
    }
    told.push_str(if dump.taken { "points" } else { "not taken" })?;
    for point in dump.points.as_slice() {
        add(alloc, told, " ", *point)?;
    }
    add(alloc, told, "\ndump bytes ", dump.bytes)?;
    tell_wire(told, dump.failed)
}

/// The status, each session's end, the dump, what is held, the journal, and which files and how many wires there are.
pub(super) fn told_by<S: Drop>(alloc: Global, outcome: &Outcome<S>) -> Result<String, Fail> {
    let mut told = String::new(alloc);
    add(alloc, &mut told, "status ", u64::from(outcome.status))?;
    tell_detail(alloc, &mut told, outcome.detail)?;
    told.push_str("\n")?;
    tell_ends(alloc, &mut told, outcome.ends.as_slice())?;
    tell_dump(alloc, &mut told, &outcome.dump)?;
    add(alloc, &mut told, "held ", u64::from(outcome.held.small))?;
    add(alloc, &mut told, " ", u64::from(outcome.held.large))?;
    told.push_str(if outcome.pool.is_some() {
        "\n"
    } else {
        " no pool\n"
    })?;
    tell_journal(alloc, &mut told, &outcome.journal)?;
    tell_files(alloc, &mut told, outcome)?;
    add(alloc, &mut told, "", outcome.wires.len() as u64)?;
    told.push_str(" wires, ")?;
    Ok(told)
}

/// What was put on each wire that has something.
pub(super) fn sent_by(alloc: Global, wires: &[Box<dyn Wire>]) -> Result<Bytes, Fail> {
    let mut sent = Bytes::new(alloc);
    for (number, wire) in wires.iter().enumerate() {
        if let Some(bytes) = wire.shown()
            && !bytes.is_empty()
        {
            sent.append((number as u64).to_string(alloc)?.as_bytes())?;
            sent.append(b" ")?;
            sent.append(bytes)?;
            sent.append(b"\n")?;
        }
    }
    Ok(sent)
}
