//! What is said where sessions are driven line by line: transcripts, and when they are right, as definitions in
//! `specs/`, what these imply, and their lines, written into room that was taken ahead.
#![tactic(auto)]

pub mod laws;
mod lines;
mod parts;

pub use lines::{
    at_end, dropped, nothing_posted, nothing_reaped, one_segment, posted, posted_front, reaped,
    ring_full, sent, stage_full,
};
