// The fields of a legacy transmit descriptor, and its bytes.
ghost use Rattle.std.specs.Prelude.{◌≡◌, ℕ, IfOk, Ok, Err, ◌↔◌};
ghost use Rattle.tx_descriptor.specs.Bytes.{descriptor_bytes, IsFirstForeign, IsLegacy};

// End of packet and report status, in the command byte.
const EOP: u8 = 1 << 0;

const RS: u8 = 1 << 3;

// Descriptor done, in the status byte.
const DD: u8 = 1 << 0;

// The bits of each byte that the profile leaves 0.
const RESERVED: [u8; 16] = [0, 0, 0, 0, 0, 0, 0, 0, 0, 0, 255, 246, 254, 255, 255, 255];

/// A legacy transmit descriptor (Intel 82574 datasheet, "Legacy Transmit Descriptor Format") with no checksum offload
/// and no VLAN tag.
#[derive(Clone, Copy, PartialEq, Eq, Debug)]
pub struct Legacy {
    /// Where the data begins.
    pub address: u64,
    /// How many bytes of data there are.
    pub len: u16,
    /// The packet ends here.
    pub eop: bool,
    /// The device is to report when it is done.
    pub rs: bool,
    /// The device is done.
    pub dd: bool,
}

/// A bit that the profile leaves 0 is 1.
#[derive(Clone, Copy, PartialEq, Eq, Debug)]
pub struct Unsupported {
    /// The first byte with such a bit.
    pub byte: u8,
}

impl Legacy {
    pub fn to_bytes(&self) -> [u8; 16]
        ensures { result ≡ descriptor_bytes self.now }
    {
        let command = if self.eop { EOP } else { 0 } + if self.rs { RS } else { 0 };
        let mut bytes = [0; 16];
        bytes[..8].copy_from_slice(&self.address.to_le_bytes());
        bytes[8..10].copy_from_slice(&self.len.to_le_bytes());
        bytes[11] = command;
        bytes[12] = if self.dd { DD } else { 0 };
        bytes
    }

    pub fn of_bytes(bytes: &[u8; 16]) -> Result<Legacy, Unsupported>
        ensures ok { IfOk result (λ v. descriptor_bytes v ≡ bytes.now) }
        ensures round_trip { (v : Legacy) → IsLegacy v → descriptor_bytes v ≡ bytes.now → result ≡ Ok v }
        ensures unsupported { (byte : ℕ) → (result ≡ Err (record { byte = byte })) ↔ IsFirstForeign byte bytes.now }
    {
        for byte in 0..16 {
            if bytes[byte] & RESERVED[byte] != 0 {
                return Err(Unsupported { byte: byte as u8 });
            }
        }
        let [a, b, c, d, e, f, g, h, low, high, _, command, status, ..] = *bytes;
        Ok(Legacy {
            address: u64::from_le_bytes([a, b, c, d, e, f, g, h]),
            len: u16::from_le_bytes([low, high]),
            eop: command & EOP != 0,
            rs: command & RS != 0,
            dd: status & DD != 0,
        })
    }
}
