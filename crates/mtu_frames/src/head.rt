// The header of a frame, as 16 bytes and as fields.
ghost use Rattle.std.specs.Prelude.{◌≡◌, ◌≤◌, length};
ghost use Rattle.mtu_frames.specs.Frames.{header_bytes};
ghost use Rattle.mtu_frames.specs.Reading.{head_of};

/// The fields of a header.
#[derive(Clone, Copy, Debug, PartialEq, Eq)]
pub(crate) struct Head {
    pub call: u32,
    /// The number of the frame in its reply, from 0.
    pub index: u32,
    /// How many frames the reply has.
    pub count: u32,
    /// How many bytes of the reply the frame has.
    pub len: u16,
}

/// The bytes of a header, each number with its low byte first.
pub fn header(call: u32, index: u32, count: u32, len: u16) -> [u8; 16]
    ensures { result ≡ header_bytes call index count len }
{
    let mut bytes = [0; 16];
    bytes[..4].copy_from_slice(&call.to_le_bytes());
    bytes[4..8].copy_from_slice(&index.to_le_bytes());
    bytes[8..12].copy_from_slice(&count.to_le_bytes());
    bytes[12..14].copy_from_slice(&len.to_le_bytes());
    bytes
}

/// The header that these bytes begin with.
pub(crate) fn read_head(frame: &[u8]) -> Head
    requires { 16 ≤ length frame.now }
    ensures { result ≡ head_of frame.now }
{
    Head {
        call: u32::from_le_bytes([frame[0], frame[1], frame[2], frame[3]]),
        index: u32::from_le_bytes([frame[4], frame[5], frame[6], frame[7]]),
        count: u32::from_le_bytes([frame[8], frame[9], frame[10], frame[11]]),
        len: u16::from_le_bytes([frame[12], frame[13]]),
    }
}
