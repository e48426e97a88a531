//! A session that is served from its source to its wire, its device beside it.
#![tactic(auto)]

mod backoff;
mod beside;
mod close;
mod counting;
mod device_side;
mod dump;
mod gather;
pub mod laws;
mod lending;
mod link;
mod serve;
mod session_side;
mod start_barrier;
mod turn;
mod waiting;
mod wiring;

pub use beside::serve_beside;
pub use dump::{DumpPlan, DumpTaken, DumpTurn};
pub use link::{Link, ServedAccount};
