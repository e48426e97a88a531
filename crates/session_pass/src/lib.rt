//! A session: its calls post replies into a ring, which are reaped once they are sent.
#![tactic(auto)]

mod call;
mod dump;
mod error;
mod finish;
mod gate;
pub mod laws;
mod ready;
mod reap;
mod room;
mod run;
mod session;

pub use call::Posted;
pub use command_pump::Pump;
pub use error::CallError;
pub use finish::Finish;
pub use gate::{Gate, NoGate};
pub use pin_dump::{Dump, Written};
pub use reap::Reaped;
pub use session::Session;
