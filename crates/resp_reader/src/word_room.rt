// The words of one request, in one room.
ghost use Rattle.std.specs.Prelude.{◌≡◌, ◌<◌, ◌≤◌, ◌+◌, ◌^◌, ◌++◌, ◌∷◌, [], List};
ghost use Rattle.std.specs.Prelude.{ℕ, length, take, drop, slice_index_or, slice_range, OnOk, OnErr, IfOk};
ghost use Rattle.flake_model.specs.Resp.{Words};
ghost use Rattle.flake_model.specs.Fronts.{array_front};
ghost use Rattle.resp_reader.specs.WordRoom.{AreSpans, AreWordsOf, Finds, GrowsFrom, last_end, word_start, words_at};

use crate::whole::whole_word;
use flake_base::Memory;
use std::alloc::Global;
use std::marker::Model;

/// The room that a first word takes.
const FIRST: usize = 128;

/// The most room that is taken for what a head announced.
pub const MOST: usize = 65_536;

/// How many bytes of a word come before room is taken for all of it.
pub const SOME: usize = 4096;

/// Where a word lies.
#[derive(Clone, Copy)]
pub struct Span {
    pub start: usize,
    pub end: usize,
}

/// Words, with where each lies, and the front of the next. Between words that came together lie the bytes that stood
/// there.
#[derive(Drop)]
pub struct WordRoom {
    bytes: Vec<u8>,
    spans: Vec<Span>,
}

impl Model for WordRoom {
    ghost use Rattle.std.specs.Prelude.{length, drop};
    ghost use Rattle.resp_reader.specs.WordRoom.{Held, words_at, last_end, AreSpans};

    ghost Value = { Held };

    ghost view = { λ r. record {
      words = words_at r.spans.items r.bytes.items;
      word = drop (last_end 0 r.spans.items) r.bytes.items;
    } };

    ghost invariant = { λ r. AreSpans 0 r.spans.items (length r.bytes.items) };
}

// Where the next word begins.
fn next_start(spans: &[Span]) -> usize
    ensures { result ≡ last_end 0 spans.now }
{
    match spans.last() {
        Some(span) => span.end,
        None => 0,
    }
}

fn part(bytes: &[u8], start: usize, end: usize) -> &[u8]
    requires ordered { start ≤ end }
    requires within { end ≤ length bytes.now }
    ensures { result.now ≡ slice_range bytes.now start end }
{
    &bytes[start..end]
}

fn word_of<'a>(bytes: &'a [u8], spans: &[Span], i: usize) -> &'a [u8]
    requires below { i < length spans.now }
    requires spans { AreSpans 0 spans.now (length bytes.now) }
    ensures { result.now ≡ slice_index_or (words_at spans.now bytes.now) i [] }
{
    let span = spans[i];
    part(bytes, span.start, span.end)
}

// Where the word at this place begins, or the next one.
fn start_of(spans: &[Span], i: usize) -> usize
    ensures { result ≡ word_start 0 spans.now i }
{
    if i < spans.len() {
        spans[i].start
    } else {
        next_start(spans)
    }
}

// Takes out what lies between the start and the word behind it.
fn close(bytes: &mut Vec<u8>, start: usize, word: usize)
    requires ordered { start ≤ word }
    requires within { word ≤ length bytes.old.items }
    ensures { bytes.new.items ≡ take start bytes.old.items ++ drop word bytes.old.items }
{
    bytes.drain(start..word);
}

// Leaves so many bytes behind the start.
fn cut(bytes: &mut Vec<u8>, start: usize, len: usize)
    requires { start ≤ length bytes.old.items }
    ensures { bytes.new.items ≡ take (start + len) bytes.old.items }
{
    if len < bytes.len() - start {
        bytes.truncate(start + len);
    }
}

// Takes a little room for the first word.
#[inline(always)]
fn reserve_first(bytes: &mut Vec<u8>) -> Result<(), Memory>
    ensures { bytes.new.items ≡ bytes.old.items }
{
    if bytes.is_empty() {
        bytes.reserve(FIRST)?;
    }
    Ok(())
}

// Notes where the words that lie whole at the front come to lie behind so many bytes, up to so many words in all.
// Answers the bytes with those words, and the rest.
#[inline(always)]
fn find_words<'a>(
    spans: &mut Vec<Span>,
    behind: usize,
    count: usize,
    bytes: &'a [u8],
) -> Result<(&'a [u8], &'a [u8]), Memory>
    requires { behind < 2 ^ 63 }
    ensures kept { take (length spans.old.items) spans.new.items ≡ spans.old.items }
    ensures shorter { IfOk result (λ found. length found.1.now ≤ length bytes.now) }
    ensures ok { IfOk result (λ found. (room : List ℕ) → length room ≡ behind → AreSpans 0 spans.old.items behind
        → last_end 0 spans.old.items ≡ behind → AreWordsOf count (words_at spans.old.items room)
        → Finds count room spans.old.items spans.new.items bytes.now found.0.now found.1.now) }
{
    let mut end = 0;
    let mut rest = bytes;
    while spans.len() < count {
        let Some((word, more)) = whole_word(rest) else {
            break;
        };
        end = bytes.len() - more.len() - 2;
        let span = Span {
            start: behind + end - word.len(),
            end: behind + end,
        };
        spans.push(span)?;
        rest = more;
    }
    Ok((bytes.split_at(end).0, rest))
}

// Puts the bytes behind those of the room.
#[inline(always)]
fn copy(bytes: &mut Vec<u8>, taken: &[u8]) -> Result<(), Memory>
    ensures ok { OnOk result (bytes.new.items ≡ bytes.old.items ++ taken.now) }
    ensures err { OnErr result (bytes.new.items ≡ bytes.old.items) }
{
    if !taken.is_empty() {
        reserve_first(bytes)?;
        bytes.extend_from_slice(taken)?;
    }
    Ok(())
}

impl WordRoom {
    pub fn new(alloc: Global) -> Self
        ensures { result ≡ record { words = []; word = [] } }
    {
        WordRoom {
            bytes: Vec::new(alloc),
            spans: Vec::new(alloc),
        }
    }

    /// How many bytes fit without more memory.
    pub fn capacity(&self) -> usize {
        self.bytes.capacity()
    }

    /// How many words are whole.
    pub fn count(&self) -> usize
        ensures { result ≡ length self.now.words }
    {
        self.spans.len()
    }

    /// How many bytes of the next word came.
    pub fn word_len(&self) -> usize
        ensures { result ≡ length self.now.word }
    {
        self.bytes.len() - next_start(&self.spans)
    }

    pub fn word(&self, i: usize) -> &[u8]
        requires { i < length self.now.words }
        ensures { result.now ≡ slice_index_or self.now.words i [] }
    {
        word_of(&self.bytes, &self.spans, i)
    }

    /// Puts bytes behind those of the next word, of which so many are to come in all.
    pub fn append(&mut self, bytes: &[u8], len: usize) -> Result<(), Memory>
        ensures ok { OnOk result (self.new ≡ record self.old { word = self.old.word ++ bytes.now }) }
        ensures err { OnErr result (self.new ≡ self.old) }
    {
        self.make_room(bytes.len(), len)?;
        self.bytes.extend_from_slice(bytes)?;
        Ok(())
    }

    // Takes room ahead: a little for the first word, and all that was announced once some of it came.
    fn make_room(&mut self, more: usize, len: usize) -> Result<(), Memory>
        ensures { self.new ≡ self.old }
    {
        reserve_first(&mut self.bytes)?;
        let came = self.word_len();
        if came < SOME && more >= SOME - came {
            self.bytes.reserve(len.min(MOST).saturating_sub(came))?;
        }
        Ok(())
    }

    /// Ends the next word here.
    pub fn end_word(&mut self) -> Result<(), Memory>
        ensures ok { OnOk result (self.new ≡ record { words = self.old.words ++ self.old.word ∷ []; word = [] }) }
        ensures err { OnErr result (self.new ≡ self.old) }
    {
        self.spans.push(Span {
            start: next_start(&self.spans),
            end: self.bytes.len(),
        })?;
        Ok(())
    }

    /// Takes the words that lie whole at the front, of an array of so many, and answers the rest.
    #[inline(always)]
    pub fn take_whole<'a>(&mut self, count: usize, bytes: &'a [u8]) -> Result<&'a [u8], Memory>
        requires words { AreWordsOf count self.old.words }
        requires word { self.old.word ≡ [] }
        ensures words { OnOk result (AreWordsOf count self.new.words) }
        ensures word { OnOk result (self.new.word ≡ []) }
        ensures ok { IfOk result (λ rest. array_front count self.old.words ++ bytes.now
            ≡ array_front count self.new.words ++ rest.now) }
        ensures shorter { IfOk result (λ rest. length rest.now ≤ length bytes.now) }
        ensures grows { GrowsFrom self.old.words self.old.word self.new.words self.new.word }
    {
        let held = self.spans.len();
        let (taken, rest) = match find_words(&mut self.spans, self.bytes.len(), count, bytes) {
            Ok(found) => found,
            Err(error) => {
                self.spans.truncate(held);
                return Err(error);
            }
        };
        if let Err(error) = copy(&mut self.bytes, taken) {
            self.spans.truncate(held);
            return Err(error);
        }
        Ok(rest)
    }

    /// Goes back to so many whole words, and so many bytes of the next.
    pub fn back(&mut self, count: usize, len: usize)
        ensures { (words : Words) (word : List ℕ) → length words ≡ count → length word ≡ len
            → GrowsFrom words word self.old.words self.old.word → self.new ≡ record { words = words; word = word } }
    {
        let word = start_of(&self.spans, count);
        self.spans.truncate(count);
        let start = next_start(&self.spans);
        close(&mut self.bytes, start, word);
        cut(&mut self.bytes, start, len);
    }

    /// Drops all words, and keeps the room.
    pub fn clear(&mut self)
        ensures { self.new ≡ record { words = []; word = [] } }
    {
        self.spans.clear();
        self.bytes.clear();
    }
}
