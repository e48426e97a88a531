//! What driven sessions come to, when all is closed: definitions over plain lists, and what they imply.
#![tactic(auto)]

pub mod laws;
