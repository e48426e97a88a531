//! What the arguments of the command line ask for: files to serve or to drive and sizes for that, with replies in
//! frames or not, files to check, a file of frames to put together, or a number and how much is generated from it.
#![tactic(auto)]

mod check;
mod command;
mod drive;
mod frames;
mod generate;
mod generate_command;
mod generate_task;
mod join;
mod named;
mod numbers;
mod sizes;
mod task;
mod words;

pub use check::{CheckTask, check_task};
pub use drive::{DriveTask, drive_task};
pub use frames::{FramesTask, frames_task};
pub use generate::gen_task;
pub use generate_task::GenTask;
pub use join::{JoinTask, join_task};
pub use named::{CommandName, command_name};
pub use sizes::SizeOptions;
pub use task::ServeTask;
pub use words::serve_task;
