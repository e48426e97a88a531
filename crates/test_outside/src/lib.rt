//! Tests of what lies outside, in memory and over real files, of wires and of frames, and of lists, by public items.
#![tactic(auto)]

#[cfg(test)]
mod checks;
#[cfg(test)]
mod faulty;
#[cfg(test)]
mod files;
#[cfg(test)]
mod frame_cases;
#[cfg(test)]
mod framed_replies;
#[cfg(test)]
mod frames;
#[cfg(test)]
mod memory;
#[cfg(test)]
mod outside;
#[cfg(test)]
mod wires;
