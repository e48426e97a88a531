// What the device is given.
use std::alloc::Global;
use tx_descriptor::Framed;

mod calls;

/// The two words of a descriptor, as they were fetched.
#[derive(Clone, Copy)]
pub(crate) struct Row {
    pub address: u64,
    /// The length, the command and the status.
    pub status: u64,
}

/// A frame that the device has out of the ring, with the descriptors that were fetched for it.
#[derive(Drop)]
pub struct Job<P: Framed> {
    pub(crate) frame: P,
    pub(crate) rows: Vec<Row>,
    // The place of the frame's last descriptor, and its status as it was fetched.
    pub(crate) last: usize,
    pub(crate) status: u64,
}

/// What the device finds.
#[derive(Drop)]
pub enum Next<P: Framed> {
    Frame(Job<P>),
    /// Nothing is posted: the tail is at the head.
    Empty { tail: u32 },
    /// Nothing is posted, and nothing more comes.
    Closed,
}
