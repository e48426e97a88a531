// Elements in pieces of any length.
ghost use Rattle.std.specs.Prelude.{◌≡◌, ◌≢◌, ◌<◌, ◌≤◌, ◌+◌, ◌++◌, ◌∷◌, [], List};
ghost use Rattle.std.specs.Prelude.{ℕ, length, IfOk, IfErr, IfSome, IfNone, OnOk, Err};
ghost use Rattle.resp_reader.specs.Head.{IsDigits, MayEnd};
ghost use Rattle.resp_reader.specs.Begun.{IsArray, IsState, IsUnfinished, Moves, Stops, IsBegunSound, begun_front};
ghost use Rattle.resp_reader.specs.Begun.{Breaks, Grows};
ghost use Rattle.flake_model.specs.Resp.{Words, IsWord, bulk_string};
ghost use Rattle.flake_model.specs.Fronts.{array_front};
ghost use Rattle.resp_reader.specs.WordRoom.{GrowsFrom};
ghost use Rattle.resp_reader.specs.declared.begun.Stop.TheVariants.{Memory as OutOfMemory};

use crate::head::{Digits, Head, line, line_end, strip, whole_line};
use crate::word_room::WordRoom;
use flake_base::Memory;
use std::alloc::{AllocError, Global};

/// What is awaited.
#[derive(Clone, Copy)]
pub enum State {
    /// The mark of an element.
    Start,
    /// More of its count line, or the CR behind it.
    InCount(Digits),
    /// The LF of its count line.
    CountEnd(Digits),
    /// The mark of a word.
    AtWord { count: u32 },
    /// More of its length line, or the CR behind it.
    InLength { count: u32, digits: Digits },
    /// The LF of its length line.
    LengthEnd { count: u32, len: u32 },
    /// More of its bytes, or the CR behind them.
    InWord { count: u32, len: u32 },
    /// The LF behind its bytes.
    WordEnd { count: u32 },
    /// Nothing: a null array is whole.
    Null,
    /// Nothing: an array is whole.
    Whole { count: u32 },
}

/// Why no more bytes are taken.
#[derive(Clone, Copy)]
pub enum Stop {
    /// The byte at this place isn't allowed, by this kind of error.
    Fault { kind: u8, place: usize },
    Memory,
}

impl From<Memory> for Stop {
    ghost from_gives = { λ _ e. e ≡ OutOfMemory };

    fn from(_: Memory) -> Self {
        Stop::Memory
    }
}

impl From<AllocError> for Stop {
    ghost from_gives = { λ _ e. e ≡ OutOfMemory };

    fn from(_: AllocError) -> Self {
        Stop::Memory
    }
}

/// An element as far as it came.
#[derive(Drop)]
pub struct Begun {
    pub state: State,
    /// The whole words, and what came of the next.
    pub room: WordRoom,
}

/// How far an element came.
#[derive(Clone, Copy)]
pub struct Mark {
    pub state: State,
    pub words: usize,
    /// How many bytes of the next word.
    pub len: usize,
}

fn start(bytes: &[u8]) -> Result<(State, &[u8]), Stop>
    requires { 0 < length bytes.now }
    ensures ok { IfOk result (λ r. Moves State.Start bytes.now r.0 r.1.now) }
    ensures shorter { IfOk result (λ r. length r.1.now < length bytes.now) }
    ensures err { IfErr result (Stops State.Start bytes.now) }
{
    match strip(bytes, b'*') {
        Some(rest) => Ok(match whole_line(Head::Count, rest) {
            Some((count, behind)) => (array(count), behind),
            None => (State::InCount(Digits::Nothing), rest),
        }),
        None => Err(Stop::Fault { kind: 4, place: 0 }),
    }
}

fn in_count(digits: Digits, bytes: &[u8]) -> Result<(State, &[u8]), Stop>
    requires allowed { IsDigits Head.Count digits }
    requires some { 0 < length bytes.now }
    ensures ok { IfOk result (λ r. Moves (State.InCount digits) bytes.now r.0 r.1.now) }
    ensures shorter { IfOk result (λ r. length r.1.now < length bytes.now) }
    ensures err { IfErr result (Stops (State.InCount digits) bytes.now) }
{
    match line(digits, Head::Count, bytes) {
        Ok((digits, Some(rest))) => Ok((State::CountEnd(digits), rest)),
        Ok((digits, None)) => Ok((State::InCount(digits), &[])),
        Err(place) => Err(Stop::Fault { kind: 1, place }),
    }
}

fn count_end(digits: Digits, bytes: &[u8]) -> Result<(State, &[u8]), Stop>
    requires { 0 < length bytes.now }
    ensures ok { IfOk result (λ r. Moves (State.CountEnd digits) bytes.now r.0 r.1.now) }
    ensures shorter { IfOk result (λ r. length r.1.now < length bytes.now) }
    ensures err { IfErr result (Stops (State.CountEnd digits) bytes.now) }
{
    let Some(rest) = strip(bytes, b'\n') else {
        return Err(Stop::Fault { kind: 1, place: 0 });
    };
    match digits {
        Digits::Number(count) => Ok((array(count), rest)),
        _ => Ok((State::Null, rest)),
    }
}

// An array of so many words, before the first.
fn array(count: u32) -> State
    ensures empty { count ≡ 0 → result ≡ State.Whole count }
    ensures words { 0 < count → result ≡ State.AtWord count }
{
    if count == 0 {
        State::Whole { count }
    } else {
        State::AtWord { count }
    }
}

// An array of so many words, of which some came.
fn behind_words(count: u32, came: usize) -> State
    ensures whole { came ≡ count → result ≡ State.Whole count }
    ensures more { came ≢ count → result ≡ State.AtWord count }
{
    if came == count as usize {
        State::Whole { count }
    } else {
        State::AtWord { count }
    }
}

fn at_word(count: u32, bytes: &[u8]) -> Result<(State, &[u8]), Stop>
    requires { 0 < length bytes.now }
    ensures ok { IfOk result (λ r. Moves (State.AtWord count) bytes.now r.0 r.1.now) }
    ensures shorter { IfOk result (λ r. length r.1.now < length bytes.now) }
    ensures err { IfErr result (Stops (State.AtWord count) bytes.now) }
{
    match strip(bytes, b'$') {
        Some(rest) => Ok(match whole_line(Head::Length, rest) {
            Some((len, behind)) => (State::InWord { count, len }, behind),
            None => {
                let digits = Digits::Nothing;
                (State::InLength { count, digits }, rest)
            }
        }),
        None => Err(Stop::Fault { kind: 2, place: 0 }),
    }
}

fn in_length(count: u32, digits: Digits, bytes: &[u8]) -> Result<(State, &[u8]), Stop>
    requires allowed { IsDigits Head.Length digits }
    requires some { 0 < length bytes.now }
    ensures ok { IfOk result (λ r. Moves (State.InLength count digits) bytes.now r.0 r.1.now) }
    ensures shorter { IfOk result (λ r. length r.1.now < length bytes.now) }
    ensures err { IfErr result (Stops (State.InLength count digits) bytes.now) }
{
    match line(digits, Head::Length, bytes) {
        Ok((Digits::Number(len), Some(rest))) => Ok((State::LengthEnd { count, len }, rest)),
        Ok((_, Some(_))) => unreachable!(),
        Ok((digits, None)) => Ok((State::InLength { count, digits }, &[])),
        Err(place) => Err(Stop::Fault { kind: 3, place }),
    }
}

fn length_end(count: u32, len: u32, bytes: &[u8]) -> Result<(State, &[u8]), Stop>
    requires { 0 < length bytes.now }
    ensures ok { IfOk result (λ r. Moves (State.LengthEnd count len) bytes.now r.0 r.1.now) }
    ensures shorter { IfOk result (λ r. length r.1.now < length bytes.now) }
    ensures err { IfErr result (Stops (State.LengthEnd count len) bytes.now) }
{
    match strip(bytes, b'\n') {
        Some(rest) => Ok((State::InWord { count, len }, rest)),
        None => Err(Stop::Fault { kind: 3, place: 0 }),
    }
}

impl Begun {
    pub fn new(alloc: Global) -> Self
        ensures sound { IsBegunSound result }
        ensures start { result.state ≡ State.Start }
        ensures empty { begun_front result ≡ [] }
    {
        Begun {
            state: State::Start,
            room: WordRoom::new(alloc),
        }
    }

    pub fn mark(&self) -> Mark
        ensures state { result.state ≡ self.now.state }
        ensures words { result.words ≡ length self.now.room.words }
        ensures len { result.len ≡ length self.now.room.word }
    {
        Mark {
            state: self.state,
            words: self.room.count(),
            len: self.room.word_len(),
        }
    }

    /// Goes back to where the mark was made.
    pub fn back(&mut self, mark: Mark)
        ensures state { self.new.state ≡ mark.state }
        ensures words { (words : Words) (word : List ℕ) → length words ≡ mark.words → length word ≡ mark.len
            → GrowsFrom words word self.old.room.words self.old.room.word
            → (self.new.room.words ≡ words) × (self.new.room.word ≡ word) }
    {
        self.room.back(mark.words, mark.len);
        self.state = mark.state;
    }

    /// Takes bytes at the front, as far as they lead to another state, and answers the rest.
    pub fn step<'a>(&mut self, bytes: &'a [u8]) -> Result<&'a [u8], Stop>
        requires sound { IsBegunSound self.old }
        requires open { IsUnfinished self.old.state }
        requires some { 0 < length bytes.now }
        ensures sound { OnOk result (IsBegunSound self.new) }
        ensures ok { IfOk result (λ rest. begun_front self.old ++ bytes.now ≡ begun_front self.new ++ rest.now) }
        ensures shorter { IfOk result (λ rest. length rest.now < length bytes.now) }
        ensures err { IfErr result (Breaks self.old bytes.now) }
        ensures grows { Grows self.old self.new }
    {
        match self.state {
            State::Start => self.element(bytes),
            State::InCount(digits) => self.go(in_count(digits, bytes)),
            State::CountEnd(digits) => self.go(count_end(digits, bytes)),
            State::AtWord { count } => self.go(at_word(count, bytes)),
            State::InLength { count, digits } => self.go(in_length(count, digits, bytes)),
            State::LengthEnd { count, len } => self.go(length_end(count, len, bytes)),
            State::InWord { count, len } => self.in_word(count, len, bytes),
            State::WordEnd { count } => self.word_end(count, bytes),
            State::Null | State::Whole { .. } => unreachable!(),
        }
    }

    /// Takes the words that lie whole at the front, where words are awaited, and answers the rest.
    pub fn take_words<'a>(&mut self, bytes: &'a [u8]) -> Result<&'a [u8], Stop>
        requires { IsBegunSound self.old }
        ensures sound { OnOk result (IsBegunSound self.new) }
        ensures ok { IfOk result (λ rest. begun_front self.old ++ bytes.now ≡ begun_front self.new ++ rest.now) }
        ensures shorter { IfOk result (λ rest. length rest.now ≤ length bytes.now) }
        ensures err { IfErr result (λ e. e ≡ OutOfMemory) }
        ensures grows { Grows self.old self.new }
    {
        let State::AtWord { count } = self.state else {
            return Ok(bytes);
        };
        let rest = self.room.take_whole(count as usize, bytes)?;
        self.state = behind_words(count, self.room.count());
        Ok(rest)
    }

    /// Takes the head of an element, and the words that lie whole behind it, and answers the rest.
    #[inline(always)]
    pub fn element<'a>(&mut self, bytes: &'a [u8]) -> Result<&'a [u8], Stop>
        requires state { self.old.state ≡ State.Start }
        requires sound { IsBegunSound self.old }
        requires some { 0 < length bytes.now }
        ensures sound { OnOk result (IsBegunSound self.new) }
        ensures ok { IfOk result (λ rest. begun_front self.old ++ bytes.now ≡ begun_front self.new ++ rest.now) }
        ensures shorter { IfOk result (λ rest. length rest.now < length bytes.now) }
        ensures err { IfErr result (Breaks self.old bytes.now) }
        ensures grows { Grows self.old self.new }
    {
        let (state, rest) = start(bytes)?;
        let State::AtWord { count } = state else {
            self.state = state;
            return Ok(rest);
        };
        let rest = self.room.take_whole(count as usize, rest)?;
        self.state = behind_words(count, self.room.count());
        Ok(rest)
    }

    fn go<'a>(&mut self, next: Result<(State, &'a [u8]), Stop>) -> Result<&'a [u8], Stop>
        ensures room { self.new.room ≡ self.old.room }
        ensures ok { IfOk next.entry (λ n. (self.new.state ≡ n.0) × IfOk result (λ rest. rest.now ≡ n.1.now)) }
        ensures err { IfErr next.entry (λ e. result ≡ Err e) }
        ensures failed { IfErr result (λ e. next.entry ≡ Err e) }
    {
        let (state, rest) = next?;
        self.state = state;
        Ok(rest)
    }

    fn in_word<'a>(&mut self, count: u32, len: u32, bytes: &'a [u8]) -> Result<&'a [u8], Stop>
        requires state { self.old.state ≡ State.InWord count len }
        requires sound { IsBegunSound self.old }
        requires some { 0 < length bytes.now }
        ensures sound { OnOk result (IsBegunSound self.new) }
        ensures ok { IfOk result (λ rest. begun_front self.old ++ bytes.now ≡ begun_front self.new ++ rest.now) }
        ensures shorter { IfOk result (λ rest. length rest.now < length bytes.now) }
        ensures err { IfErr result (Breaks self.old bytes.now) }
        ensures grows { Grows self.old self.new }
    {
        let left = len as usize - self.room.word_len();
        if left == 0 {
            let Some(rest) = strip(bytes, b'\r') else {
                return Err(Stop::Fault { kind: 3, place: 0 });
            };
            self.state = State::WordEnd { count };
            return Ok(rest);
        }
        let (now, rest) = bytes.split_at(left.min(bytes.len()));
        self.room.append(now, len as usize)?;
        match line_end(rest) {
            Some(behind) => {
                self.end_word(count)?;
                Ok(behind)
            }
            None => Ok(rest),
        }
    }

    fn word_end<'a>(&mut self, count: u32, bytes: &'a [u8]) -> Result<&'a [u8], Stop>
        requires state { self.old.state ≡ State.WordEnd count }
        requires sound { IsBegunSound self.old }
        requires some { 0 < length bytes.now }
        ensures sound { OnOk result (IsBegunSound self.new) }
        ensures ok { IfOk result (λ rest. begun_front self.old ++ bytes.now ≡ begun_front self.new ++ rest.now) }
        ensures shorter { IfOk result (λ rest. length rest.now < length bytes.now) }
        ensures err { IfErr result (Breaks self.old bytes.now) }
        ensures grows { Grows self.old self.new }
    {
        let Some(rest) = strip(bytes, b'\n') else {
            return Err(Stop::Fault { kind: 3, place: 0 });
        };
        self.end_word(count)?;
        Ok(rest)
    }

    // The next word and its line end are whole.
    fn end_word(&mut self, count: u32) -> Result<(), Stop>
        requires array { IsArray count self.old.room.words }
        requires word { IsWord self.old.room.word }
        ensures sound { OnOk result (IsBegunSound self.new) }
        ensures ok { OnOk result (begun_front self.new
            ≡ array_front count self.old.room.words ++ bulk_string self.old.room.word) }
        ensures err { IfErr result (λ e. e ≡ Stop.Memory) }
        ensures grows { Grows self.old self.new }
    {
        self.room.end_word()?;
        self.state = behind_words(count, self.room.count());
        Ok(())
    }
}
