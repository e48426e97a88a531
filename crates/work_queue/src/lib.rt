//! Jobs that some workers take from one queue, each job once.
#![tactic(auto)]

mod crew;
mod hand;
mod passes;
mod room;
mod slots;
mod worker_slot;
mod workers;

pub use workers::{in_workers, jobs_in_workers};
