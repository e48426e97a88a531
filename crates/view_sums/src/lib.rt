//! Sums over lists of views, for rules that speak of what all seats of a table have together.
#![tactic(auto)]

pub mod laws;
