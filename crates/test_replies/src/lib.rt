//! Tests of replies on their way: plans, devices and sessions, by public items.
#![tactic(auto)]

#[cfg(test)]
mod acting;
#[cfg(test)]
mod making;
#[cfg(test)]
mod pacing;
#[cfg(test)]
mod plans;
#[cfg(test)]
mod putting;
#[cfg(test)]
mod replies;
#[cfg(test)]
mod resources;
#[cfg(test)]
mod rows;
#[cfg(test)]
mod staging;
#[cfg(test)]
mod threads;
