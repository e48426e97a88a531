ghost use Rattle.std.specs.Prelude.{◌≡◌, ◌≢◌, ◌+◌, ◌≤◌, ◌++◌, ◌↔◌, [], List};
ghost use Rattle.std.specs.Prelude.{ℕ, length, None, Some, IsNone, OnOk, IfErr, IfSome};
ghost use Rattle.std.specs.Option.{option_to_list};
ghost use Rattle.flake_model.specs.Resp.{Words, Parses, judged_bytes};
ghost use Rattle.resp_reader.specs.Reader.{ReadsRequests, fed_to, input_end};

use crate::parser::Parser;
use crate::{Ended, ReadError, Request};
use std::alloc::Global;
use std::marker::Model;

/// Reads requests from an input that comes in pieces of any length.
#[derive(Drop)]
pub struct Reader {
    parser: Parser,
    closed: Option<ReadError>,
}

impl Model for Reader {
    ghost use Rattle.std.specs.Prelude.{◌≡◌, None};
    ghost use Rattle.resp_reader.specs.Reader.{Progress, progress};
    ghost use Rattle.resp_reader.specs.Parser.{IsBetweenCalls};

    ghost Value = { Progress };

    ghost view = { λ r. progress r.parser r.closed };

    ghost invariant = { λ r. r.closed ≡ None → IsBetweenCalls r.parser };
}

impl Reader {
    pub fn new(alloc: Global) -> Self
        ensures fed { ReadsRequests [] [] result }
        ensures requests { result.requests ≡ [] }
        ensures open { result.closed ≡ None }
        ensures empty { fed_to result ≡ 0 }
    {
        Reader {
            parser: Parser::new(alloc),
            closed: None,
        }
    }

    /// Takes the whole piece. A reader that gave an error is closed, but for want of memory, and gives that error
    /// from then on.
    pub fn feed(&mut self, piece: &[u8]) -> Result<(), ReadError>
        // All that was fed means what was given and what is still to be given, and the error, if one came.
        ensures fed { result ≢ Err ReadError.Memory → (bytes : List ℕ) (given : List Words)
            → ReadsRequests bytes given self.old
            → ReadsRequests (bytes ++ piece.now) given self.new }
        ensures ok { OnOk result (self.new.closed ≡ None) }
        ensures closes { IfErr result (λ e. e ≢ ReadError.Memory → self.new.closed ≡ Some e) }

        // An open reader was fed no more than is judged.
        ensures counted { OnOk result (fed_to self.new ≡ fed_to self.old + length piece.now) }
        ensures judged { OnOk result (fed_to self.new ≤ judged_bytes) }

        // A closed reader stays as it is, and after want of memory any is as before.
        ensures again { IfSome self.old.closed (λ e. (result ≡ Err e) × (self.new ≡ self.old)) }
        ensures memory { IfErr result (λ e. e ≡ ReadError.Memory → self.new ≡ self.old) }
    {
        if let Some(error) = self.closed {
            return Err(error);
        }
        self.parser.make_places();
        match self.parser.feed(piece) {
            Ok(()) => Ok(()),
            Err(ReadError::Memory) => Err(ReadError::Memory),
            Err(error) => {
                self.closed = Some(error);
                Err(error)
            }
        }
    }

    /// The next whole request.
    pub fn next(&mut self) -> Option<Request>
        ensures request { self.old.requests ≡ option_to_list result ++ self.new.requests }
        ensures none { IsNone result ↔ (self.old.requests ≡ []) }
        ensures front { (self.new.front ≡ self.old.front) × (self.new.place ≡ self.old.place) }
        ensures closed { self.new.closed ≡ self.old.closed }
        ensures fed { (bytes : List ℕ) (given : List Words) → ReadsRequests bytes given self.old
            → ReadsRequests bytes (given ++ option_to_list result) self.new }
    {
        self.parser.ready.pop_front()
    }

    /// How many bytes the words of the request that comes next can have in all without more memory for them.
    pub fn capacity(&self) -> usize {
        self.parser.begun.room.capacity()
    }

    /// Takes the room of a request back, for one that comes.
    pub fn give_back(&mut self, request: Request)
        ensures { self.new ≡ self.old }
    {
        self.parser.give_back(request);
    }

    /// How the input ends that was fed, where no more comes.
    pub fn end(self) -> Ended
        requires { self.closed ≡ None }
        ensures { (bytes : List ℕ) (given : List Words) → ReadsRequests bytes given self
            → Parses bytes (given ++ self.requests) (input_end result) }
    {
        if self.parser.place == self.parser.taken {
            Ended::Clean
        } else {
            Ended::Truncated {
                place: self.parser.place,
            }
        }
    }
}
