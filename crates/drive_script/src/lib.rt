//! Sessions that are driven line by line, as a schedule asks; what a session and its device show meanwhile, and why
//! each line is right then.
#![tactic(auto)]

mod acting;
mod asking;
mod call;
mod connection;
mod driven;
mod driving;
mod happened;
pub mod laws;
mod leaving;
pub mod line_laws;
mod lines;
mod saying;
mod telling;

pub use asking::Asking;
pub use connection::Connection;
pub use driven::{Driven, drive};
pub use driving::Driving;
pub use happened::Happened;
pub use leaving::DrivenAccount;
pub use lines::drive_lines;
pub use saying::LineRoom;
pub use telling::tell;
