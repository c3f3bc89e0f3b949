//! Tests of the texts that the commands read: which are scripts, which are accounts, and what is said of the others.
//!
//! What they expect was worked out by hand, or by `reference`, which writes the rules down once more.
#![tactic(auto)]

#[cfg(test)]
mod accounts;
#[cfg(test)]
mod changed;
#[cfg(test)]
mod cuts;
#[cfg(test)]
mod forms;
#[cfg(test)]
mod sizes;
