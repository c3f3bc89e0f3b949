//! The round of collective calls that node 0 gathers, and what it gives to the nodes.
#![tactic(auto)]

mod fold;
mod round;
mod slots;
mod tally;
#[cfg(test)]
mod tests;

pub use fold::{copy_fold, copy_part, fold_len, part_len};
pub use round::Round;
