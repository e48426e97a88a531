// The answer of a ring that has no room.
use tx_descriptor::Framed;

/// The ring has no room for the frame, which comes back.
#[derive(Drop)]
pub struct Busy<P: Framed> {
    /// How many descriptors the frame takes.
    pub need: u32,
    /// How many are free.
    pub room: u32,
    pub frame: P,
}
