//! Where a reply's bytes lie: long stored pieces at their own addresses, all other bytes in staging buffers; and how
//! many descriptors and staging buffers a command can need.
#![tactic(auto)]

pub mod laws;
mod need;

pub use need::Need;
