//! The holds of a pool's buffers as a plain list: who holds which buffer, what it may do with it, and what each event
//! makes of that.
#![tactic(auto)]

mod class;
mod credits;
mod event;
mod holder;
pub mod laws;
mod refused;
mod sizes;
mod state;

pub use class::{Class, Held};
pub use event::{Change, PinEvent};
pub use holder::Holder;
pub use refused::{Memory, Refused};
pub use sizes::Sizes;
pub use state::PinState;
