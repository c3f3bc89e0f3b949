//! A use of `crl_turns` at values of its own, and its tests.
//!
//! The part of a value is a node's number, and the value is how many events of that node there were.
#![tactic(auto)]

pub mod counting;
pub mod tally;
#[cfg(test)]
mod tests;
