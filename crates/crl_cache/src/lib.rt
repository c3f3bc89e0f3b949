//! The regions that a node has unmapped and whose copies it keeps, so that it can map them again without a
//! message.
#![tactic(auto)]

mod kept;
#[cfg(test)]
mod tests;

pub use kept::Cache;
