//! What is said of a run at its end, in room that is taken before the run: nothing here takes memory.
#![tactic(auto)]

mod dump;
mod journal;
mod put;
mod summary;
mod total;

pub use dump::DumpLine;
pub use journal::say_journal;
pub use put::REPORT_ROOM;
pub use summary::put_summary;
pub use total::put_total;
