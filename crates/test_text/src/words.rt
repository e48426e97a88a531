//! What words ask for, and requests that are generated.
mod frames;
mod generated;
mod joins;
mod numbers;
mod tasks;
mod typing;
