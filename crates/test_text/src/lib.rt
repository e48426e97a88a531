//! Tests of what reads, judges and writes texts: requests, commands, journals, schedules, replies and the words of the
//! command line, by public items.
#![tactic(auto)]

#[cfg(test)]
mod checks;
#[cfg(test)]
mod commands;
#[cfg(test)]
mod files;
#[cfg(test)]
mod journals;
#[cfg(test)]
mod needs;
#[cfg(test)]
mod pumps;
#[cfg(test)]
mod ranges;
#[cfg(test)]
mod requests;
#[cfg(test)]
mod schedules;
#[cfg(test)]
mod shards;
#[cfg(test)]
mod stored;
#[cfg(test)]
mod texts;
#[cfg(test)]
mod verdicts;
#[cfg(test)]
mod words;
