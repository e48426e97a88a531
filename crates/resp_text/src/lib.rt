//! The RESP2 text of replies.
#![tactic(auto)]

mod errors;
mod lines;
mod reply;
mod sizes;
mod texts;

pub use errors::error_text;
pub use lines::line;
pub use reply::{Items, Reply};
pub use sizes::line_size;
pub use texts::{put_text, text};
