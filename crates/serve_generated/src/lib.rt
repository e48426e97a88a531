//! Generated requests, served as inputs are, from a pool that has as many buffers as their commands may claim.
#![tactic(auto)]

mod demand;
mod input;
mod rows;
mod serve;
mod sizes;
mod sources;

pub use demand::generated_demand;
pub use input::InputSource;
pub use rows::Demand;
pub use serve::{GeneratedRefusal, serve_generated};
