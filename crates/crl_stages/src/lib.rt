//! Who has the regions of one home: where each region stands, the nodes that asked for it, and of these the
//! ones that a delete still waits for. No step but `Stages::ready_serial` takes memory.
#![tactic(auto)]

mod node_set;
mod row;
mod stages;
#[cfg(test)]
mod tests;

pub use node_set::NodeSet;
pub use row::Row;
pub use stages::Stages;
