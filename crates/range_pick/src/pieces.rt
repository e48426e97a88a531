// The parts of a value's fragments that a span lies in.
ghost use Rattle.std.specs.Prelude.{◌≡◌, ◌+◌, ◌≤◌};
ghost use Rattle.range_pick.specs.Pieces.{span_pieces, ArePieces};

use crate::Span;
use std::marker::Model;

/// The most bytes of a fragment.
const FRAG_BYTES: u64 = 4096;

/// Bytes of one fragment of a value: the fragment's number, the place of the first byte in it, and how many they are.
#[derive(Clone, Copy, Debug, PartialEq, Eq)]
pub struct Piece {
    pub frag: u32,
    pub from: u32,
    pub len: u32,
}

/// The pieces of a span: one for each fragment that it touches, in order.
#[derive(Drop)]
pub struct Pieces {
    rest: Span,
}

impl Model for Pieces {
    ghost use Rattle.std.specs.Prelude.{◌+◌, ◌≤◌, List};
    ghost use Rattle.range_pick.specs.Pieces.{span_pieces};
    ghost use Rattle.range_pick.specs.declared.pieces.Piece.{Piece};

    ghost Value = { List Piece };

    ghost view = { λ p. span_pieces p.rest };

    ghost invariant = { λ p. p.rest.from + p.rest.len ≤ 65536 };
}

impl Pieces {
    /// The pieces of a span of a value, which has at most 65,536 bytes.
    pub fn of(span: Span) -> Pieces
        requires { span.from + span.len ≤ 65536 }
        ensures pieces { result ≡ span_pieces span }
        ensures parts { ArePieces span result }
    {
        Pieces { rest: span }
    }
}

impl Iterator for Pieces {
    ghost use Rattle.std.specs.Iterator.{YieldsFirst, item_count};

    type Item = Piece;

    ghost next_gives = { YieldsFirst (λ rest. rest) };

    ghost remaining = { item_count (λ rest. rest) };

    fn next(&mut self) -> Option<Piece> {
        let Span { from, len } = self.rest;
        if len == 0 {
            return None;
        }
        let place = from % FRAG_BYTES;
        let here = len.min(FRAG_BYTES - place);
        self.rest = Span {
            from: from + here,
            len: len - here,
        };
        Some(Piece {
            frag: (from / FRAG_BYTES) as u32,
            from: place as u32,
            len: here as u32,
        })
    }
}
