// Why there is no ring.

/// Why there is no ring.
#[derive(Clone, Copy, Debug, PartialEq, Eq)]
pub enum RingError {
    /// The number of descriptors is no multiple of 8 from 8 to 4,096.
    BadSize { n: u32 },
    Memory,
}
