// Parts of a line, put behind what stands there.
ghost use Rattle.std.specs.Prelude.{◌≡◌, ◌+◌, ◌*◌, ◌≤◌, ◌++◌, ◌∷◌, length, vec_len, vec_capacity};
ghost use Rattle.std.specs.Fmt.{decimal};
ghost use Rattle.std.specs.List.{flat_map};
ghost use Rattle.transcript_model.specs.Lines.{numbers_text, segment_text, reaped_text, stored_text};

use flake_base::Seg;
use itoa::Buffer;

/// Bytes for which there is room.
pub(crate) fn put(text: &mut Vec<u8>, bytes: &[u8])
    requires { vec_len text.old + length bytes.now ≤ vec_capacity text.old }
    ensures items { text.new.items ≡ text.old.items ++ bytes.now }
    ensures len { vec_len text.new ≡ vec_len text.old + length bytes.now }
    ensures capacity { vec_capacity text.old ≤ vec_capacity text.new }
{
    // There is room, so it doesn't fail.
    let _ = text.extend_from_slice(bytes);
}

// A number of at most 20 digits behind a mark.
fn put_number(text: &mut Vec<u8>, mark: u8, n: u64)
    requires { vec_len text.old + 21 ≤ vec_capacity text.old }
    ensures items { text.new.items ≡ text.old.items ++ mark ∷ decimal n }
    ensures len { vec_len text.new ≤ vec_len text.old + 21 }
    ensures capacity { vec_capacity text.old ≤ vec_capacity text.new }
{
    put(text, &[mark]);
    let mut buffer = Buffer::new();
    put(text, buffer.format(n).as_bytes());
}

/// A blank and each number.
pub(crate) fn put_numbers(text: &mut Vec<u8>, numbers: &[u64])
    requires { vec_len text.old + 21 * length numbers.now ≤ vec_capacity text.old }
    ensures items { text.new.items ≡ text.old.items ++ numbers_text numbers.now }
    ensures len { vec_len text.new ≤ vec_len text.old + 21 * length numbers.now }
    ensures capacity { vec_capacity text.old ≤ vec_capacity text.new }
{
    for n in numbers {
        put_number(text, b' ', *n);
    }
}

/// A blank, the address and the length of each segment.
pub(crate) fn put_segments(text: &mut Vec<u8>, segments: &[Seg])
    requires { vec_len text.old + 42 * length segments.now ≤ vec_capacity text.old }
    ensures items { text.new.items ≡ text.old.items ++ flat_map segment_text segments.now }
    ensures len { vec_len text.new ≤ vec_len text.old + 42 * length segments.now }
    ensures capacity { vec_capacity text.old ≤ vec_capacity text.new }
{
    for segment in segments {
        put_segment(text, segment);
    }
}

/// A blank, the address and the length.
pub(crate) fn put_segment(text: &mut Vec<u8>, segment: &Seg)
    requires { vec_len text.old + 42 ≤ vec_capacity text.old }
    ensures items { text.new.items ≡ text.old.items ++ segment_text segment.now }
    ensures len { vec_len text.new ≤ vec_len text.old + 42 }
    ensures capacity { vec_capacity text.old ≤ vec_capacity text.new }
{
    put_number(text, b' ', segment.address);
    put_number(text, b':', u64::from(segment.len));
}

/// How many replies were reaped, where any were.
pub(crate) fn put_reaped(text: &mut Vec<u8>, n: u32)
    requires { vec_len text.old + 28 ≤ vec_capacity text.old }
    ensures items { text.new.items ≡ text.old.items ++ reaped_text n }
    ensures len { vec_len text.new ≤ vec_len text.old + 28 }
    ensures capacity { vec_capacity text.old ≤ vec_capacity text.new }
{
    if n > 0 {
        put(text, b" reaped");
        put_number(text, b' ', u64::from(n));
    }
}

/// The fragments that were stored, where any were.
pub(crate) fn put_stored(text: &mut Vec<u8>, stored: &[Seg])
    requires { vec_len text.old + (6 + 42 * length stored.now) ≤ vec_capacity text.old }
    ensures items { text.new.items ≡ text.old.items ++ stored_text stored.now }
    ensures capacity { vec_capacity text.old ≤ vec_capacity text.new }
    ensures len { vec_len text.new ≤ vec_len text.old + (6 + 42 * length stored.now) }
{
    if !stored.is_empty() {
        put(text, b" store");
        put_segments(text, stored);
    }
}
