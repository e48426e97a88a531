//! What a run opens before it reads anything, and closes at its end: a pool, a book and a store, and for each of 1 to
//! 16 sources a ring, a session and a device. What the closing says of sessions that ran stands in one record.
#![tactic(auto)]

mod blanks;
mod closing;
mod passing;
mod resources;
mod sizes;
mod slot;
mod spread;

pub use blanks::RunBlanks;
pub use closing::{Closed, close_all};
pub use passing::SESSION_CREDITS;
pub use resources::{RunResources, open_resources};
pub use sizes::RunSizes;
pub use slot::SessionSlot;
pub use spread::ClaimSpread;
