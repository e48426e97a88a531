// Elements behind one another, in pieces of any length.
ghost use Rattle.std.specs.Prelude.{◌≡◌, ◌≢◌, ◌<◌, ◌≤◌, ◌+◌, ◌++◌, ◌∷◌, [], List};
ghost use Rattle.std.specs.Prelude.{ℕ, length, IfOk, OnOk, OnErr, IfErr, Some, None};
ghost use Rattle.std.specs.Option.{option_to_list};
ghost use Rattle.flake_model.specs.Resp.{Words, array, request_of, judged_bytes};
ghost use Rattle.resp_reader.specs.WordRoom.{GrowsFrom};
ghost use Rattle.resp_reader.specs.Begun.{begun_front, IsBegunSound, IsUnfinished, Breaks, Grows};
ghost use Rattle.resp_reader.specs.Parser.{IsBetweenCalls, TakesTo, CanGoBack, IsBack, IsMark, StopsAt};
ghost use Rattle.resp_reader.specs.Reader.{error_at, ReadsRequests, progress};
ghost use Rattle.resp_reader.specs.Errors.{HasError};
ghost use Rattle.resp_reader.specs.declared.parser.Parser.{Parser};

use crate::begun::{Begun, Mark, State, Stop};
use crate::word_room::{MOST, SOME, WordRoom};
use crate::{ReadError, Request};
use std::alloc::Global;
use std::collections::VecDeque;
use std::mem::replace;

/// The requests that are whole, and what came behind them.
#[derive(Drop)]
pub struct Parser {
    alloc: Global,
    pub ready: VecDeque<Request>,
    pub begun: Begun,
    /// The rooms of requests that were given back.
    spares: Vec<WordRoom>,
    /// How many bytes were taken.
    pub taken: u64,
    /// Where the element that isn't whole begins.
    pub place: u64,
}

/// The most rooms that are kept: a piece of 4,096 bytes has no more requests, of which the shortest has 10.
const SPARES: usize = 410;

/// How many bytes of an input are judged: 64 MiB.
pub const JUDGED: u64 = 67_108_864;

fn fault(kind: u8, place: u64) -> ReadError
    ensures { result ≡ error_at kind place }
{
    match kind {
        1 => ReadError::BadCount { place },
        2 => ReadError::ExpectedBulk { place },
        3 => ReadError::BadLength { place },
        _ => ReadError::Inline { place },
    }
}

impl Parser {
    pub fn new(alloc: Global) -> Self
        ensures kept { IsBetweenCalls result }
        ensures ready { result.ready.items ≡ [] }
        ensures front { begun_front result.begun ≡ [] }
        ensures place { result.place ≡ 0 }
    {
        Parser {
            alloc,
            ready: VecDeque::new(alloc),
            begun: Begun::new(alloc),
            spares: Vec::new(alloc),
            taken: 0,
            place: 0,
        }
    }

    /// Takes a piece, as far as it is judged.
    pub fn feed(&mut self, piece: &[u8]) -> Result<(), ReadError>
        requires { IsBetweenCalls self.old }
        ensures kept { OnOk result (IsBetweenCalls self.new) }
        ensures ok { OnOk result
            ((bytes : List ℕ) (given : List Words) → ReadsRequests bytes given (progress self.old None)
            → ReadsRequests (bytes ++ piece.now) given (progress self.new None)) }
        ensures err { IfErr result (λ e. e ≢ ReadError.Memory → (bytes : List ℕ) (given : List Words)
            → ReadsRequests bytes given (progress self.old None)
            → ReadsRequests (bytes ++ piece.now) given (progress self.new (Some e))) }
        ensures memory { IfErr result (λ e. e ≡ ReadError.Memory → IsBack self.old self.new) }
        ensures taken { OnOk result (self.new.taken ≡ self.old.taken + length piece.now) }
    {
        let left = JUDGED - self.taken;
        if piece.len() as u64 <= left {
            return self.judge(piece);
        }
        let (piece, _) = piece.split_at(left as usize);
        self.judge(piece)?;
        Err(ReadError::TooLong { taken: JUDGED })
    }

    /// Places for the rooms that come back. Where memory is wanting for them there are none, and those rooms are
    /// dropped.
    #[inline(always)]
    pub fn make_places(&mut self)
        ensures ready { self.new.ready ≡ self.old.ready }
        ensures begun { self.new.begun ≡ self.old.begun }
        ensures places { (self.new.taken ≡ self.old.taken) × (self.new.place ≡ self.old.place) }
    {
        if self.spares.capacity() == 0 {
            let _ = self.spares.reserve(SPARES);
        }
    }

    // Takes a piece that is judged whole.
    fn judge(&mut self, piece: &[u8]) -> Result<(), ReadError>
        requires kept { IsBetweenCalls self.old }
        requires judged { self.old.taken + length piece.now ≤ judged_bytes }
        ensures ok { OnOk result (TakesTo self.old self.new piece.now []) }
        ensures kept { OnOk result (IsBetweenCalls self.new) }
        ensures err { IfErr result (λ e. e ≢ ReadError.Memory → HasError self.old self.new piece.now e) }
        ensures memory { IfErr result (λ e. e ≡ ReadError.Memory → IsBack self.old self.new) }
        ensures taken { OnOk result (self.new.taken ≡ self.old.taken + length piece.now) }
    {
        let fed = self.taken;
        match self.take(piece) {
            Ok(()) => Ok(()),
            Err(Stop::Memory) => Err(ReadError::Memory),
            Err(Stop::Fault { kind, place }) => Err(fault(kind, fed + place as u64)),
        }
    }

    /// Takes all bytes. After want of memory it is as before.
    pub fn take(&mut self, bytes: &[u8]) -> Result<(), Stop>
        requires kept { IsBetweenCalls self.old }
        requires judged { self.old.taken + length bytes.now ≤ judged_bytes }
        ensures ok { OnOk result (TakesTo self.old self.new bytes.now []) }
        ensures kept { OnOk result (IsBetweenCalls self.new) }
        ensures err { IfErr result (StopsAt self.old self.new bytes.now) }
        ensures memory { IfErr result (λ e. e ≡ Stop.Memory → IsBack self.old self.new) }
        ensures taken { OnOk result (self.new.taken ≡ self.old.taken + length bytes.now) }
    {
        let held = self.ready.len();
        let mark = self.begun.mark();
        let place = self.place;
        match self.run(bytes) {
            Ok(()) => {
                self.taken += bytes.len() as u64;
                Ok(())
            }
            Err(Stop::Memory) => {
                self.back(held, mark, place);
                Err(Stop::Memory)
            }
            Err(fault) => Err(fault),
        }
    }

    // Goes back to so many requests, and to the element that had begun.
    fn back(&mut self, held: usize, mark: Mark, place: u64)
        ensures { (before : Parser) → held ≡ length before.ready.items → IsMark mark before.begun → place ≡ before.place
            → self.old.taken ≡ before.taken → CanGoBack before self.old → IsBack before self.new }
    {
        self.reclaim(held);
        self.reopen(mark, place);
    }

    // Takes back the words of the request at this place, if there is one, and drops those behind it.
    fn reclaim(&mut self, held: usize)
        ensures same { length self.old.ready.items ≤ held → self.new ≡ self.old }
        ensures words { (ready others : List Words) (first : Words) → length ready ≡ held
            → self.old.ready.items ≡ ready ++ first ∷ others
            → (self.new.ready.items ≡ ready) × (self.new.begun.room.words ≡ first) }
        ensures state { self.new.begun.state ≡ self.old.begun.state }
        ensures places { (self.new.taken ≡ self.old.taken) × (self.new.place ≡ self.old.place) }
    {
        if self.ready.len() <= held {
            return;
        }
        self.ready.truncate(held + 1);
        if let Some(first) = self.ready.pop_back() {
            self.begun.room = first.into_room();
        }
    }

    fn reopen(&mut self, mark: Mark, place: u64)
        ensures state { self.new.begun.state ≡ mark.state }
        ensures words { (words : Words) (word : List ℕ) → length words ≡ mark.words → length word ≡ mark.len
            → GrowsFrom words word self.old.begun.room.words self.old.begun.room.word
            → (self.new.begun.room.words ≡ words) × (self.new.begun.room.word ≡ word) }
        ensures ready { self.new.ready ≡ self.old.ready }
        ensures places { (self.new.taken ≡ self.old.taken) × (self.new.place ≡ place) }
    {
        self.begun.back(mark);
        self.place = place;
    }

    // Takes all bytes, or stops.
    fn run(&mut self, bytes: &[u8]) -> Result<(), Stop>
        requires kept { IsBetweenCalls self.old }
        requires judged { self.old.taken + length bytes.now ≤ judged_bytes }
        ensures ok { OnOk result (TakesTo self.old self.new bytes.now []) }
        ensures sound { OnOk result (IsBegunSound self.new.begun) }
        ensures open { OnOk result (IsUnfinished self.new.begun.state) }
        ensures err { IfErr result (StopsAt self.old self.new bytes.now) }
        ensures back { OnErr result (CanGoBack self.old self.new) }
        ensures taken { self.new.taken ≡ self.old.taken }
    {
        let mut rest = bytes;
        while !rest.is_empty() {
            let read = bytes.len() - rest.len();
            match self.step(rest) {
                Ok(behind) => rest = behind,
                Err(Stop::Memory) => return Err(Stop::Memory),
                Err(Stop::Fault { kind, place }) => {
                    return Err(Stop::Fault {
                        kind,
                        place: read + place,
                    });
                }
            }
            self.keep(self.taken + (bytes.len() - rest.len()) as u64)?;
        }
        Ok(())
    }

    fn step<'a>(&mut self, bytes: &'a [u8]) -> Result<&'a [u8], Stop>
        requires sound { IsBegunSound self.old.begun }
        requires open { IsUnfinished self.old.begun.state }
        requires some { 0 < length bytes.now }
        ensures sound { OnOk result (IsBegunSound self.new.begun) }
        ensures ok { IfOk result (λ rest. begun_front self.old.begun ++ bytes.now ≡ begun_front self.new.begun
            ++ rest.now) }
        ensures shorter { IfOk result (λ rest. length rest.now < length bytes.now) }
        ensures err { IfErr result (Breaks self.old.begun bytes.now) }
        ensures grows { Grows self.old.begun self.new.begun }
        ensures ready { self.new.ready ≡ self.old.ready }
        ensures places { (self.new.taken ≡ self.old.taken) × (self.new.place ≡ self.old.place) }
    {
        if let State::Start = self.begun.state {
            return self.begun.element(bytes);
        }
        let rest = self.begun.step(bytes)?;
        self.begun.take_words(rest)
    }

    // Gives the request of an element that is whole, which ends here.
    fn keep(&mut self, end: u64) -> Result<(), Stop>
        requires sound { IsBegunSound self.old.begun }
        requires end { end ≡ self.old.place + length (begun_front self.old.begun) }
        ensures ok { OnOk result (TakesTo self.old self.new [] []) }
        ensures sound { OnOk result (IsBegunSound self.new.begun) }
        ensures open { OnOk result (IsUnfinished self.new.begun.state) }
        ensures err { IfErr result (λ e. e ≡ Stop.Memory) }
        ensures back { CanGoBack self.old self.new }
        ensures taken { self.new.taken ≡ self.old.taken }
    {
        match self.begun.state {
            State::Null => {
                self.start_at(end);
                Ok(())
            }
            State::Whole { .. } => {
                self.give()?;
                self.start_at(end);
                Ok(())
            }
            _ => Ok(()),
        }
    }

    fn start_at(&mut self, place: u64)
        ensures state { self.new.begun.state ≡ State.Start }
        ensures place { self.new.place ≡ place }
        ensures ready { self.new.ready ≡ self.old.ready }
        ensures room { self.new.begun.room ≡ self.old.begun.room }
        ensures taken { self.new.taken ≡ self.old.taken }
    {
        self.begun.state = State::Start;
        self.place = place;
    }

    /// Takes the room of a request back, where there is a place for it. Of long rooms it keeps one at most, of short
    /// ones as many as a piece has requests.
    pub fn give_back(&mut self, request: Request)
        ensures ready { self.new.ready ≡ self.old.ready }
        ensures begun { self.new.begun ≡ self.old.begun }
        ensures places { (self.new.taken ≡ self.old.taken) × (self.new.place ≡ self.old.place) }
    {
        let room = request.into_room();
        let most = if self.spares.is_empty() { MOST } else { SOME };
        if room.capacity() <= most && self.spares.len() < self.spares.capacity() {
            self.spares.push_reserved(room);
        }
    }

    // Room for the next element.
    fn next_room(&mut self) -> WordRoom
        ensures room { result ≡ record { words = []; word = [] } }
        ensures ready { self.new.ready ≡ self.old.ready }
        ensures begun { self.new.begun ≡ self.old.begun }
        ensures places { (self.new.taken ≡ self.old.taken) × (self.new.place ≡ self.old.place) }
    {
        match self.spares.pop() {
            Some(mut room) => {
                room.clear();
                room
            }
            None => WordRoom::new(self.alloc),
        }
    }

    // Gives the words as a request, where there are any.
    fn give(&mut self) -> Result<(), Stop>
        requires { self.old.begun.room.word ≡ [] }
        ensures ok { OnOk result (self.new.ready.items
            ≡ self.old.ready.items ++ option_to_list (request_of (array self.old.begun.room.words))) }
        ensures given { OnOk result ((self.new.begun.room.words ≡ []) × (self.new.begun.room.word ≡ [])) }
        ensures err { IfErr result (λ e. e ≡ Stop.Memory) }
        ensures kept { OnErr result ((self.new.ready.items ≡ self.old.ready.items)
            × (self.new.begun.room ≡ self.old.begun.room)) }
        ensures state { self.new.begun.state ≡ self.old.begun.state }
        ensures places { (self.new.taken ≡ self.old.taken) × (self.new.place ≡ self.old.place) }
    {
        if self.begun.room.count() == 0 {
            return Ok(());
        }
        self.ready.reserve(1)?;
        let next = self.next_room();
        let room = replace(&mut self.begun.room, next);
        self.ready.push_back_reserved(Request::new(room));
        Ok(())
    }
}
