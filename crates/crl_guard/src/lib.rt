//! The guards of a node's open sections, each with bytes of its own, and what the node is at: nothing, a
//! wait, or an answer that it has yet to take, which may be such a guard.
#![tactic(auto)]

mod guards;
mod standing;
#[cfg(test)]
mod tests;

pub use guards::{Reading, Writing};
pub use standing::Standing;
