//! Ranges of a value: the numbers that name one, the span of bytes that they mean, and the parts of the value's
//! fragments that the span lies in.
#![tactic(auto)]

mod pieces;
mod ranges;
mod signed;
mod spans;

pub use pieces::{Piece, Pieces};
pub use ranges::span;
pub use signed::{NotInteger, read_signed};
pub use spans::Span;
