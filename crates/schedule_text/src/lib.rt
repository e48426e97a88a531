//! The text of a schedule: a line for each thing that a session is asked to do.
#![tactic(auto)]

mod error;
pub mod laws;
mod line;
mod reading;

pub use error::ScheduleError;
pub use line::{Line, Schedule};
pub use reading::read_schedule;
