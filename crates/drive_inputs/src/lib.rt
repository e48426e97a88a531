//! Sources, from one to 16, that are driven as a schedule asks, over a new pool, book and store, and over a ring, a
//! session and a device for each: all is opened, the schedule is followed on one thread, all is closed, and what that
//! says together stands in one record.
#![tactic(auto)]

mod held;
pub mod laws;
mod pairing;
mod results;
mod run;
mod space;
mod whole;

pub use held::{HELD_ROOM, held_line};
pub use run::drive_inputs;
pub use whole::DrivenRun;
