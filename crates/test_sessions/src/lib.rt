//! Tests of sessions that are served and driven, of transcripts and of reports, by public items.
#![tactic(auto)]

#[cfg(test)]
mod alone;
#[cfg(test)]
mod checks;
#[cfg(test)]
mod common;
#[cfg(test)]
mod demands;
#[cfg(test)]
mod driven;
#[cfg(test)]
mod generated;
#[cfg(test)]
mod inputs;
#[cfg(test)]
mod lines;
#[cfg(test)]
mod reports;
