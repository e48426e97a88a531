// Where a frame ends, and the next one begins.
ghost use Rattle.std.specs.Prelude.{◌≡◌, ◌≤◌, length, take, drop};
ghost use Rattle.join_files.specs.Cutting.{next_length};

// The bytes of a header.
const HEADER: usize = 16;

// How many of these bytes are the next frame.
fn next_end(bytes: &[u8]) -> usize
    ensures front { take result bytes.now ≡ take (next_length bytes.now) bytes.now }
    ensures behind { drop result bytes.now ≡ drop (next_length bytes.now) bytes.now }
    ensures within { result ≤ length bytes.now }
{
    if bytes.len() < HEADER {
        return bytes.len();
    }
    let len = u16::from_le_bytes([bytes[12], bytes[13]]);
    bytes.len().min(HEADER + usize::from(len))
}

/// The next frame, and what is behind it.
pub(crate) fn split_frame(bytes: &[u8]) -> (&[u8], &[u8])
    ensures frame { result.0.now ≡ take (next_length bytes.entry.now) bytes.entry.now }
    ensures behind { result.1.now ≡ drop (next_length bytes.entry.now) bytes.entry.now }
{
    bytes.split_at(next_end(bytes))
}
