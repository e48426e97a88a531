// Bytes for which there is room.
ghost use Rattle.std.specs.Prelude.{◌≡◌, ◌+◌, ◌≤◌, ◌++◌, ◌∷◌, [], length, vec_capacity, vec_len};
ghost use Rattle.std.specs.Fmt.{decimal};
ghost use Rattle.flake_model.specs.Said.{wire_state};

use itoa::Buffer;

/// The most bytes that stand ready to be said at once: the lines of 16 sessions are fewer.
pub const REPORT_ROOM: usize = 4096;

pub(crate) fn put(text: &mut Vec<u8>, bytes: &[u8])
    requires { vec_len text.old + length bytes.now ≤ vec_capacity text.old }
    ensures items { text.new.items ≡ text.old.items ++ bytes.now }
    ensures len { vec_len text.new ≡ vec_len text.old + length bytes.now }
    ensures capacity { vec_capacity text.old ≤ vec_capacity text.new }
{
    // There is room, so it doesn't fail.
    let _ = text.extend_from_slice(bytes);
}

/// A number of at most 20 digits.
pub(crate) fn put_number(text: &mut Vec<u8>, n: u64)
    requires { vec_len text.old + 20 ≤ vec_capacity text.old }
    ensures items { text.new.items ≡ text.old.items ++ decimal n }
    ensures len { vec_len text.new ≤ vec_len text.old + 20 }
    ensures capacity { vec_capacity text.old ≤ vec_capacity text.new }
{
    let mut buffer = Buffer::new();
    put(text, buffer.format(n).as_bytes());
}

/// A number, and the byte that ends it.
pub(crate) fn put_field(text: &mut Vec<u8>, n: u64, end: u8)
    requires { vec_len text.old + 21 ≤ vec_capacity text.old }
    ensures items { text.new.items ≡ text.old.items ++ (decimal n ++ end ∷ []) }
    ensures len { vec_len text.new ≤ vec_len text.old + 21 }
    ensures some { 1 ≤ vec_len text.new }
    ensures capacity { vec_capacity text.old ≤ vec_capacity text.new }
{
    put_number(text, n);
    put(text, &[end]);
}

/// Whether a put on a wire failed, and the line's end.
pub(crate) fn put_state(text: &mut Vec<u8>, failed: bool)
    requires { vec_len text.old + 7 ≤ vec_capacity text.old }
    ensures items { text.new.items ≡ text.old.items ++ (wire_state failed ++ 10 ∷ []) }
    ensures len { vec_len text.new ≤ vec_len text.old + 7 }
    ensures capacity { vec_capacity text.old ≤ vec_capacity text.new }
{
    if failed {
        put(text, b"failed\n");
    } else {
        put(text, b"whole\n");
    }
}
