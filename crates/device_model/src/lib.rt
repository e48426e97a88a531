//! A device that gathers replies from the buffers that their descriptors name, and puts them on a wire.
#![tactic(auto)]

mod device;
mod framing;
mod gathered;
pub mod laws;
mod sending;

pub use device::Device;
pub use gathered::Gathered;
