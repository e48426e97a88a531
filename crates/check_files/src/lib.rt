//! Files that are read whole, and the verdict on the journal, the inputs and the replies that they hold.
#![tactic(auto)]

mod contents;
mod error;
mod file;
mod named;
mod opening;
mod verdict;
mod whole;

pub use error::{CheckError, Unread};
pub use file::File;
pub use named::check_named;
pub use verdict::check_files;
pub use whole::read_whole;
