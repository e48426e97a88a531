/// Want of memory.
#[derive(Clone, Copy, PartialEq, Eq, Debug)]
pub struct Memory;

/// Why an event makes no step. The tests are made in this order.
#[derive(Clone, Copy, PartialEq, Eq, Debug)]
pub enum Refused {
    /// A claim of a buffer that has holds.
    NotFree { holds: u32 },
    /// The holder that the event names has no such hold.
    NotHeld,
    /// A put under a hold that is not exclusive.
    NotOwned,
    /// A pin for a holder that has no credit, or a give of more than the giver has.
    NoCredit,
    /// A put past the front or past the buffer, or a load at or past the front's end. The front has `length` words.
    OutOfFront { length: u32 },
    /// Want of memory.
    Memory,
}
