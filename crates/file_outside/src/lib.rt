//! The real outside: files and standard output. It tells no content; it counts its bytes and its failures.
#![tactic(auto)]

mod again;
mod ahead;
mod host;
mod source;
mod unwritten;
mod wire;

pub use host::FileHost;
pub use source::FileSource;
pub use wire::FileWire;
