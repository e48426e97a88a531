//! Values in fragments over the buffers of a pool, what takes them from whoever owns them, and pinned holds that keep
//! them, whatever becomes of them where they were found.
#![tactic(auto)]

mod appending;
mod claims;
mod error;
mod filling;
mod frag;
mod handing;
pub mod laws;
mod limits;
mod pair;
mod pinned;
mod pinning;
mod placing;
mod read;
mod releasing;
mod taker;
mod text;
mod unpinning;

pub use appending::{append, append_from};
pub use error::{AppendError, PlaceError};
pub use filling::fill;
pub use flake_base::VALUE_LIMIT;
pub use frag::{Frag, Value};
pub use handing::{hand, hand_over, hand_range};
pub use limits::{FRAG_BYTES, MOST_FRAGS, SMALL_BYTES};
pub use pair::{PairRoom, PinnedPair};
pub use pinned::Pinned;
pub use pinning::pin_value;
pub use placing::{write, write_from};
pub use read::read_into;
pub use releasing::release;
pub use taker::Taker;
pub use unpinning::release_pins;
