//! Tests of whole runs, over memory.
#![tactic(auto)]

#[cfg(test)]
mod tests;
