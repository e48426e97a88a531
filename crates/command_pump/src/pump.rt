// Commands from a source.
ghost use Rattle.std.specs.Prelude.{◌≡◌, ◌<◌, ◌⊎◌, ◌++◌, ◌∷◌, [], List, ℕ, None, IfOk, IfErr, Err};
ghost use Rattle.flake_model.specs.Command.{Command as Meaning};
ghost use Rattle.flake_model.specs.Resp.{Words, Parses};
ghost use Rattle.flake_model.specs.Input.{protocol_error};
ghost use Rattle.resp_reader.specs.Reader.{ReadsRequests};
ghost use Rattle.command_pump.specs.Pump.{Origin, IsPump, SeeksNext, HasEnded, AnswersEnd, bytes_taken, stage_after};
ghost use Rattle.command_pump.specs.Broken.{kind_of};

use command_parts::Command;
use flake_base::{End, ErrorKind, Failed, Source};
use resp_reader::{Ended, JUDGED, ReadError, Reader};
use std::alloc::Global;
use std::marker::Model;
use std::mem::replace;

/// The most bytes of one read.
const PIECE: usize = 4096;

/// Where a byte stands that no request has there.
#[derive(Clone, Copy, Debug, PartialEq, Eq)]
pub enum Broken {
    /// In a count line.
    Count,
    /// For the mark of a word.
    Mark,
    /// In a length line, or in the line end of a word.
    Length,
    /// First of a request.
    Start,
}

impl Broken {
    // The number by which an end names it.
    fn kind(self) -> u8
        ensures { result ≡ kind_of self }
    {
        match self {
            Broken::Count => 1,
            Broken::Mark => 2,
            Broken::Length => 3,
            Broken::Start => 4,
        }
    }

    // The error that answers it.
    fn error(self) -> ErrorKind
        ensures { result ≡ protocol_error (kind_of self) }
    {
        match self {
            Broken::Count => ErrorKind::ProtocolCount,
            Broken::Mark => ErrorKind::ProtocolBulk,
            Broken::Length => ErrorKind::ProtocolLength,
            Broken::Start => ErrorKind::ProtocolInline,
        }
    }
}

/// How far a pump has come.
#[derive(Clone, Copy, Debug, PartialEq, Eq)]
pub enum Stage {
    /// More bytes may come.
    Reading,
    /// The input has an error, whose command isn't given yet.
    Refused { broken: Broken, place: u64 },
    /// All that is left is in the reader.
    Ended(End),
}

/// Reads a session's commands from a source, in pieces, and only when no whole request is left.
#[derive(Drop)]
pub struct Pump<S: Source> {
    alloc: Global,
    source: S,
    reader: Reader,
    stage: Stage,
    taken: u64,
    room: [u8; PIECE],
}

impl<S: Source> Model for Pump<S> {
    ghost use Rattle.std.specs.Prelude.{◌≡◌};
    ghost use Rattle.command_pump.specs.Pump.{PumpState, TakesPieces};
    ghost use Rattle.command_pump.specs.declared.pump.Stage.{Stage};

    ghost Value = { PumpState };

    ghost view = { λ p. record {
      origin = record { name = S.name p.source; whole = S.whole p.source };
      given = S.given p.source;
      ended = S.ended p.source;
      faults = S.read_faults p.source;
      reader = p.reader;
      stage = p.stage;
      taken = p.taken;
    } };

    ghost invariant = { λ p. p.stage ≡ Stage.Reading → TakesPieces p.reader p.taken };
}

// A pump whose reader found a byte that no request has there.
fn refused(broken: Broken, place: u64) -> Stage
    ensures { result ≡ Stage.Refused broken place }
{
    Stage::Refused { broken, place }
}

// What becomes of a pump whose reader doesn't take a piece.
fn stopped(error: ReadError) -> Stage
    ensures { result ≡ stage_after error }
{
    match error {
        ReadError::BadCount { place } => refused(Broken::Count, place),
        ReadError::ExpectedBulk { place } => refused(Broken::Mark, place),
        ReadError::BadLength { place } => refused(Broken::Length, place),
        ReadError::Inline { place } => refused(Broken::Start, place),
        ReadError::TooLong { .. } => Stage::Ended(End::TooLong),
        ReadError::Memory => Stage::Ended(End::Memory),
    }
}

// How many bytes a session took that ended so, of those that the source gave.
fn taken_at(end: End, given: u64) -> u64
    ensures { result ≡ bytes_taken end given }
{
    match end {
        End::Protocol { place, .. } => place.saturating_add(1),
        End::TooLong => JUDGED,
        _ => given,
    }
}

// How an input ended that was read whole.
fn input_end(reader: Reader) -> End
    requires { reader.closed ≡ None }
    ensures parsed { (bytes : List ℕ) (given : List Words) → ReadsRequests bytes given reader
        → Parses bytes (given ++ reader.requests) result }
    ensures ends { (result ≡ End.Clean) ⊎ ((place : ℕ) × (result ≡ End.Truncated place)) }
{
    match reader.end() {
        Ended::Clean => End::Clean,
        Ended::Truncated { place } => End::Truncated { place },
    }
}

impl<S: Source> Pump<S> {
    pub fn new(alloc: Global, source: S) -> Self
        requires { S.given source ≡ [] }
        ensures pump { IsPump (record { name = S.name source; whole = S.whole source }) (S.read_faults source) []
            result }
        ensures source { (result.given ≡ []) × (result.ended ≡ S.ended source)
            × (result.faults ≡ S.read_faults source) }
    {
        Pump {
            alloc,
            source,
            reader: Reader::new(alloc),
            stage: Stage::Reading,
            taken: 0,
            room: [0; PIECE],
        }
    }

    /// The next command, or how the input ended, which later calls answer again and change nothing. A byte that no
    /// request has there makes one command of its own.
    #[inline(always)]
    pub fn next(&mut self) -> Result<Command, End>
        ensures command { IfOk result (λ command. (input : Origin) (before : ℕ) (given : List Meaning)
            → IsPump input before given self.old
            → IsPump input before (given ++ command ∷ []) self.new × (self.new.faults ≡ before)) }
        ensures end { IfErr result (λ end. (input : Origin) (before : ℕ) (given : List Meaning)
            → IsPump input before given self.old
            → HasEnded input before given end self.new) }
        ensures over { IfErr result (λ end. AnswersEnd end self.new) }
        ensures again { (end : End) → AnswersEnd end self.old → (result ≡ Err end) × (self.new ≡ self.old) }
    {
        loop {
            if let Some(request) = self.reader.next() {
                return Ok(Command::of(request));
            }
            match self.stage {
                Stage::Reading => self.read(),
                Stage::Refused { broken, place } => {
                    let kind = broken.kind();
                    self.stage = Stage::Ended(End::Protocol { kind, place });
                    return Ok(Command::protocol(broken.error()));
                }
                Stage::Ended(end) => {
                    self.taken = taken_at(end, self.taken);
                    return Err(end);
                }
            }
        }
    }

    // Reads a piece, and feeds it.
    fn read(&mut self)
        requires reading { self.old.stage ≡ Stage.Reading }
        requires none { self.old.reader.requests ≡ [] }
        ensures kept { (input : Origin) (before : ℕ) (given : List Meaning)
            → SeeksNext input before given self.old → SeeksNext input before given self.new }
        ensures further { self.new.stage ≡ Stage.Reading → self.old.taken < self.new.taken }
    {
        let Ok(count) = self.source.read(&mut self.room) else {
            self.stage = Stage::Ended(End::ReadFault);
            return;
        };
        if count == 0 {
            let reader = replace(&mut self.reader, Reader::new(self.alloc));
            self.stage = Stage::Ended(input_end(reader));
            return;
        }
        if let Err(error) = self.reader.feed(&self.room[..count]) {
            self.stage = stopped(error);
        }
        self.taken += count as u64;
    }

    /// Takes back the room of a command's words, for those that come.
    pub fn give_back(&mut self, command: Command)
        ensures { self.new ≡ self.old }
    {
        if let Some(request) = command.into_request() {
            self.reader.give_back(request);
        }
    }

    /// How many bytes of the input were taken; behind its end by what that is.
    pub fn taken(&self) -> u64
        ensures { result ≡ self.now.taken }
    {
        self.taken
    }

    pub fn into_source(self) -> S
        ensures name { S.name result ≡ self.origin.name }
        ensures whole { S.whole result ≡ self.origin.whole }
        ensures given { S.given result ≡ self.given }
        ensures ended { S.ended result ≡ self.ended }
        ensures faults { S.read_faults result ≡ self.faults }
    {
        self.source
    }
}
