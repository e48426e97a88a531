//! Sources, from one to 16, served by workers that take them from one queue, over a new pool, book and store, and over
//! a ring, a session and a device for each: all is opened, the sources are served to their ends, all is closed, and
//! what that says together stands in one record.
#![tactic(auto)]

mod dumped;
mod job;
mod jobs;
mod orders;
mod results;
mod run;
mod serving;
mod space;
mod workers;

pub use dumped::DumpEnd;
pub use job::{Dumped, FinishedJob, ServeJob, Waiting};
pub use run::serve_inputs;
pub use run_resources::RunSizes;
pub use serving::Served;
pub use workers::{serve_all, serve_job};
