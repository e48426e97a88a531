//! A pool of buffers that any number of threads hold without a lock. Each count word is the number of holds of its
//! buffer.
#![tactic(auto)]

mod addresses;
mod atomic;
mod blank;
mod bytes;
mod claiming;
mod end;
mod hold;
pub mod laws;
mod moving;
mod name;
mod naming;
mod pinning;
mod plays;
mod pool;
mod rule;
mod seat;
mod seating;
mod seats;
mod start;
mod unpinned;
mod view;
mod words;

pub use blank::PoolBlank;
pub use end::PoolEnd;
pub use hold::Hold;
pub use name::PoolName;
pub use naming::NamesHolds;
pub use pin_core::{Class, Held, Memory, Sizes};
pub use pool::{NoBuffer, Pool};
pub use seat::PoolSeat;
pub use seats::PoolSeats;
pub use start::ClaimStart;
pub use unpinned::Unpinned;
