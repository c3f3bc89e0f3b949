//! Tests of the commands: what they do, their words, and the faults of sources and sinks.
//!
//! What they expect was worked out by hand, from the rules of a single machine with one array, and of the protocol.
#![tactic(auto)]

#[cfg(test)]
mod copies;
#[cfg(test)]
mod ends;
#[cfg(test)]
mod faults;
#[cfg(test)]
mod made;
#[cfg(test)]
mod orders;
#[cfg(test)]
mod refusals;
#[cfg(test)]
mod runs;
#[cfg(test)]
mod sections;
#[cfg(test)]
mod sizes;
#[cfg(test)]
mod threads;
#[cfg(test)]
mod words;
