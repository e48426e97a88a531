//! The text of a journal: a line that tells the number of shards, and a line for each entry. Other texts of lines and
//! plain numbers are read by the same parts.
#![tactic(auto)]

mod error;
mod fields;
mod laws;
mod lines;
mod numbers;
mod reading;
mod writing;

pub use error::JournalError;
pub use laws::{one_journal, text_has_lines};
pub use lines::first_line;
pub use numbers::number;
pub use reading::read_journal;
pub use writing::journal_text;
