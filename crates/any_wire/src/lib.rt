//! How bytes are put on a wire of any type, by calls that the caller gives, until one of them fails; and what a wire
//! tells of them.
#![tactic(auto)]

mod calls;
pub mod laws;
mod steps;

pub use calls::{Calls, WireCalls};
pub use steps::{MOST_PUT, flush_unless_failed, put_unless_failed};
