ghost use Rattle.std.specs.Prelude.{◌≡◌, ◌≤◌, ◌+◌, ◌++◌, ◌∷◌, length, take};
ghost use Rattle.std.specs.Fmt.{decimal};
ghost use Rattle.flake_model.specs.Resp.{crlf};

use itoa::Buffer;

/// Writes a mark, a decimal number and the end of a line at the front of the room, and answers how many bytes
/// that is: 3 more than the number has digits.
pub fn line(room: &mut [u8; 24], mark: u8, n: u64) -> usize
    ensures count { result ≡ length (decimal n) + 3 }
    ensures written { take result room.new ≡ mark ∷ decimal n ++ crlf }
{
    let mut buffer = Buffer::new();
    let marked = put(room, 0, &[mark]);
    let numbered = put(room, marked, buffer.format(n).as_bytes());
    put(room, numbered, b"\r\n")
}

// Writes bytes behind the first ones, and answers where they end.
fn put(room: &mut [u8], at: usize, bytes: &[u8]) -> usize
    requires { at + length bytes.now ≤ length room.old }
    ensures end { result ≡ at + length bytes.now }
    ensures written { take result room.new ≡ take at room.old ++ bytes.now }
{
    let end = at + bytes.len();
    room[at..end].copy_from_slice(bytes);
    end
}
