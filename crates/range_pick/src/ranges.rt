// Which bytes of a value two places enclose.
ghost use Rattle.std.specs.Prelude.{◌≡◌, ℕ, ◌+◌, ◌-◌, ◌≤◌, List, length, min, take, drop};
ghost use Rattle.flake_model.specs.Range.{first_place, end_place, range_of};

use crate::Span;

/// The span of the bytes from the place `start` to the place `end`, both included, in a value of `len` bytes. Places
/// count from 0, and those below 0 from the end, the last byte's being -1. Where no byte lies there it is empty.
pub fn span(len: u64, start: i64, end: i64) -> Span
    ensures from { result.from ≡ min (first_place len start) len }
    ensures len { result.len ≡ end_place len end - first_place len start }
    ensures within { result.from + result.len ≤ len }
    ensures range { (bytes : List ℕ) → length bytes ≡ len
        → take result.len (drop result.from bytes) ≡ range_of bytes start end }
{
    let from = first_byte(len, start).min(len);
    let len = byte_behind(len, end).saturating_sub(from);
    Span { from, len }
}

// The first byte of a range.
fn first_byte(len: u64, start: i64) -> u64
    ensures { result ≡ first_place len start }
{
    match u64::try_from(start) {
        Ok(place) => place,
        Err(_) => len.saturating_sub(start.unsigned_abs()),
    }
}

// The place behind the last byte of a range.
fn byte_behind(len: u64, end: i64) -> u64
    ensures { result ≡ end_place len end }
{
    match u64::try_from(end) {
        Ok(place) => (place + 1).min(len),
        Err(_) => len.saturating_sub(end.unsigned_abs() - 1),
    }
}
