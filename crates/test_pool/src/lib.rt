//! Tests of what replies are made over, by public items: the pool and its holds as a plain list, values in fragments,
//! descriptors and rings, the book of deeds, workers, and places whose value is lent.
#![tactic(auto)]

#[cfg(test)]
mod books;
#[cfg(test)]
mod claims;
#[cfg(test)]
mod descriptors;
#[cfg(test)]
mod pins;
#[cfg(test)]
mod places;
#[cfg(test)]
mod pool;
#[cfg(test)]
mod rings;
#[cfg(test)]
mod values;
#[cfg(test)]
mod workers;
