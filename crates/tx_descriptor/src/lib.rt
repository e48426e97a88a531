//! The legacy transmit descriptor of the Intel 82574 as 16 bytes, and what a ring asks of the frames that it carries.
#![tactic(auto)]

mod framed;
mod legacy;

pub use framed::Framed;
pub use legacy::{Legacy, Unsupported};
