// What the files of a command come to that serves nothing.
ghost use Rattle.std.specs.Prelude.{◌≡◌, ◌<◌, length, IfOk, string_bytes};
ghost use Rattle.flake_run.specs.Finding.{finding_text, found_by, stopped_by};

use crate::outcome::{
    BAD_LINE, Detail, NOT_THE_SAME, OUT_OF_MEMORY, READ_FAULT, Refusal, SERVED, TOO_LARGE,
    WRITE_FAULT,
};
use check_files::CheckError;
use flake_base::Memory;
use replay_check::Verdict;
use std::alloc::Global;
use std::fmt;

/// What files come to that are checked, that are to be driven, or whose frames are to be put together.
#[derive(Clone, Copy, Debug, PartialEq, Eq)]
pub enum Finding {
    BadWords,
    /// The file of this number did not open.
    OpenFault(u16),
    /// A read of the file of this number failed.
    ReadFault(u16),
    /// The file of this number has more bytes than it may.
    TooLarge(u16),
    /// This line of the journal's file isn't of its form.
    BadLine(u64),
    Judged(Verdict),
    /// The frame of this number, counted from 1, is the first that is refused.
    BadFrame(u64),
    /// The least frame that is missing.
    Missing { call: u32, frame: u32 },
    Memory,
}

impl Finding {
    ghost use Rattle.std.specs.Prelude.{◌≡◌};
    ghost use Rattle.flake_run.specs.Finding.{finding_detail, finding_status, status_unsaid};

    /// The status, where saying it does not fail.
    pub fn status(self) -> u8
        ensures { result ≡ finding_status self }
    {
        match self {
            Finding::BadWords => Refusal::BadWords.status(),
            Finding::OpenFault(file) => Refusal::OpenFault(file).status(),
            Finding::ReadFault(_) => READ_FAULT,
            Finding::TooLarge(_) => TOO_LARGE,
            Finding::BadLine(_) | Finding::BadFrame(_) => BAD_LINE,
            Finding::Judged(Verdict::Same) => SERVED,
            Finding::Judged(Verdict::Differs { .. } | Verdict::BadJournal { .. }) => NOT_THE_SAME,
            Finding::Missing { .. } => NOT_THE_SAME,
            Finding::Memory => OUT_OF_MEMORY,
        }
    }

    /// The status, where saying it fails.
    pub fn status_unsaid(self) -> u8
        ensures { result ≡ status_unsaid self }
    {
        match self {
            Finding::Judged(Verdict::Same) => WRITE_FAULT,
            finding => finding.status(),
        }
    }

    pub fn detail(self) -> Detail
        ensures { result ≡ finding_detail self }
    {
        match self {
            Finding::OpenFault(file) | Finding::ReadFault(file) | Finding::TooLarge(file) => {
                Detail::File(file)
            }
            Finding::BadLine(line) => Detail::Line(line),
            Finding::Judged(
                Verdict::Differs {
                    session,
                    place,
                    expected,
                    found,
                },
            ) => Detail::Differs {
                session,
                place,
                expected,
                found,
            },
            Finding::Judged(Verdict::BadJournal { shard, place }) => {
                Detail::Journal { shard, place }
            }
            Finding::BadFrame(number) => Detail::Frame(number),
            Finding::Missing { call, frame } => Detail::Missing { call, frame },
            Finding::BadWords | Finding::Judged(Verdict::Same) | Finding::Memory => Detail::Nothing,
        }
    }
}

/// What an answer comes to.
pub fn found_by(answer: Result<Verdict, CheckError>) -> Finding
    ensures { result ≡ found_by answer }
{
    match answer {
        Ok(verdict) => Finding::Judged(verdict),
        Err(error) => stopped_by(error),
    }
}

// What it is that there is no verdict.
fn stopped_by(error: CheckError) -> Finding
    ensures { result ≡ stopped_by error }
{
    match error {
        CheckError::OpenFault { file } => Finding::OpenFault(file),
        CheckError::ReadFault { file } => Finding::ReadFault(file),
        CheckError::TooLarge { file } => Finding::TooLarge(file),
        CheckError::BadLine { line } => Finding::BadLine(line),
        CheckError::Memory => Finding::Memory,
    }
}

#[derive(Clone, Copy)]
struct ByteOrEnd(Option<u8>);

impl fmt::Display for ByteOrEnd {
    ghost use Rattle.std.specs.Prelude.{Some};
    ghost use Rattle.flake_run.specs.Finding.{byte_text};

    ghost output = { λ b. Some (byte_text b.0) };

    fn fmt<W: fmt::Write>(&self, f: &mut fmt::Formatter<W>) -> fmt::Result {
        match self.0 {
            Some(byte) => write!(f, "{byte}"),
            None => f.write_str("end"),
        }
    }
}

#[derive(Clone, Copy)]
struct VerdictLine(Verdict);

impl fmt::Display for VerdictLine {
    ghost use Rattle.std.specs.Prelude.{Some};
    ghost use Rattle.flake_run.specs.Finding.{verdict_text};

    ghost output = { λ v. Some (verdict_text v.0) };

    fn fmt<W: fmt::Write>(&self, f: &mut fmt::Formatter<W>) -> fmt::Result {
        match self.0 {
            Verdict::Same => f.write_str("same\n"),
            Verdict::Differs {
                session,
                place,
                expected,
                found,
            } => {
                let expected = ByteOrEnd(expected);
                let found = ByteOrEnd(found);
                write!(
                    f,
                    "differs session {session} place {place} expected {expected} found {found}\n"
                )
            }
            Verdict::BadJournal { shard, place } => {
                write!(f, "bad journal shard {shard} place {place}\n")
            }
        }
    }
}

#[derive(Clone, Copy)]
struct FindingLine(Finding);

impl fmt::Display for FindingLine {
    ghost use Rattle.std.specs.Prelude.{Some};
    ghost use Rattle.flake_run.specs.Finding.{finding_text};

    ghost output = { λ l. Some (finding_text l.0) };

    fn fmt<W: fmt::Write>(&self, f: &mut fmt::Formatter<W>) -> fmt::Result {
        match self.0 {
            Finding::BadWords => f.write_str("bad words\n"),
            Finding::OpenFault(file) => write!(f, "cannot open {file}\n"),
            Finding::ReadFault(file) => write!(f, "read fault {file}\n"),
            Finding::TooLarge(file) => write!(f, "too large {file}\n"),
            Finding::BadLine(line) => write!(f, "bad line {line}\n"),
            Finding::Judged(verdict) => {
                let verdict = VerdictLine(verdict);
                write!(f, "{verdict}")
            }
            Finding::BadFrame(number) => write!(f, "bad frame {number}\n"),
            Finding::Missing { call, frame } => write!(f, "missing call {call} frame {frame}\n"),
            Finding::Memory => f.write_str("out of memory\n"),
        }
    }
}

/// What is said of it.
pub fn finding_text(alloc: Global, finding: Finding) -> Result<String, Memory>
    ensures text { IfOk result (λ text. string_bytes text ≡ finding_text finding) }
    ensures some { IfOk result (λ text. 0 < length (string_bytes text)) }
{
    let line = FindingLine(finding);
    let text = format!(in alloc; "{line}")?;
    Ok(text)
}
