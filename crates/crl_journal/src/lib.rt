//! What a node writes down of a run, with room that is taken beforehand; and the account of a run, which is
//! what all nodes recorded, by position.
#![tactic(auto)]

mod journal;
mod merging;
mod queue;
mod records;
#[cfg(test)]
mod tests;

pub use journal::Journal;
pub use merging::account;
pub use records::Records;
