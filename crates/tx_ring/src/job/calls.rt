// What a job shows.
ghost use Rattle.std.specs.Prelude.{◌≡◌, ◌<◌, Some, length, slice_get};
ghost use Rattle.std.specs.Borrow.{sem};
ghost use Rattle.tx_ring.specs.Rows.{row_bytes, row_segment};
ghost use Rattle.tx_ring.specs.Jobs.{frame_of, descriptors, segments};
ghost use Rattle.tx_ring.specs.Lending.{lends_frame};

use super::{Job, Row};
use flake_base::Seg;
use tx_descriptor::Framed;

// The length stands in the low 16 bits of the status.
const LENGTHS: u64 = 1 << 16;

impl Row {
    fn to_bytes(self) -> [u8; 16]
        ensures { result ≡ row_bytes self }
    {
        let mut bytes = [0; 16];
        bytes[..8].copy_from_slice(&self.address.to_le_bytes());
        bytes[8..].copy_from_slice(&self.status.to_le_bytes());
        bytes
    }

    fn segment(self) -> Seg
        ensures { result ≡ row_segment self }
    {
        Seg {
            address: self.address,
            len: (self.status % LENGTHS) as u32,
        }
    }
}

impl<P: Framed> Job<P> {
    /// How many descriptors the frame has.
    pub fn count(&self) -> usize
        ensures value { result ≡ length (descriptors self.now) }
        ensures segments { result ≡ length (segments self.now) }
    {
        self.rows.len()
    }

    /// The bytes of a descriptor, as they stood in the ring.
    pub fn descriptor(&self, i: usize) -> [u8; 16]
        requires { i < length (descriptors self.now) }
        ensures { slice_get (descriptors self.now) i ≡ Some result }
    {
        self.rows[i].to_bytes()
    }

    /// The address and the length that a descriptor has, as they stood in the ring.
    pub fn segment(&self, i: usize) -> Seg
        requires { i < length (segments self.now) }
        ensures { slice_get (segments self.now) i ≡ Some result }
    {
        self.rows[i].segment()
    }

    /// The frame, which is to be as it was given once the job is completed.
    pub fn frame(&mut self) -> &mut P
        ensures* writes_back { sem 𝓛 (lends_frame P.row self.entry result) }
        ensures value { result.now ≡ frame_of self.old }
    {
        &mut self.frame
    }
}
