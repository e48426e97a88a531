// The last line of a transcript.
ghost use Rattle.std.specs.Prelude.{◌≡◌, ◌+◌, ◌≤◌, ◌++◌, ◌∷◌, length, vec_capacity, vec_len};
ghost use Rattle.std.specs.Fmt.{decimal};
ghost use Rattle.transcript_model.specs.Lines.{held_text};
ghost use Rattle.drive_inputs.specs.Held.{held_room};

use itoa::Buffer;
use pin_core::Held;

/// The most bytes of the line.
pub const HELD_ROOM: usize = 47;

// Bytes for which there is room.
fn put(text: &mut Vec<u8>, bytes: &[u8])
    requires { vec_len text.old + length bytes.now ≤ vec_capacity text.old }
    ensures items { text.new.items ≡ text.old.items ++ bytes.now }
    ensures len { vec_len text.new ≡ vec_len text.old + length bytes.now }
    ensures capacity { vec_capacity text.old ≤ vec_capacity text.new }
{
    // There is room, so it doesn't fail.
    let _ = text.extend_from_slice(bytes);
}

// A blank and a number of at most 20 digits.
fn put_number(text: &mut Vec<u8>, n: u64)
    requires { vec_len text.old + 21 ≤ vec_capacity text.old }
    ensures items { text.new.items ≡ text.old.items ++ 32 ∷ decimal n }
    ensures len { vec_len text.new ≤ vec_len text.old + 21 }
    ensures capacity { vec_capacity text.old ≤ vec_capacity text.new }
{
    put(text, b" ");
    let mut buffer = Buffer::new();
    put(text, buffer.format(n).as_bytes());
}

/// Writes how many small and large buffers are held, in the place of what stands there. Needs no memory.
pub fn held_line(text: &mut Vec<u8>, held: Held)
    requires { held_room ≤ vec_capacity text.old }
    ensures { text.new.items ≡ held_text held.small held.large }
{
    text.clear();
    put(text, b"held");
    put_number(text, u64::from(held.small));
    put_number(text, u64::from(held.large));
    put(text, b"\n");
}
