//! What may come next in a run.
use crate::NodeNo;

/// One of the steps that a run may take next. A place is counted from 0.
#[derive(Clone, Copy, Debug, PartialEq, Eq)]
pub enum Choice {
    /// The next statement of a node that is free.
    Statement(NodeNo),
    /// The answer for which a node has waited.
    Collect(NodeNo),
    /// The message at this place of the node's inbox.
    Handle(NodeNo, usize),
    /// The message at this place of the node's outbox.
    Carry(NodeNo, usize),
}
