//! Where reading stands.
use crl_model::NodeNo;

/// What was read so far, of the lines that aren't skipped.
#[derive(Clone, Copy)]
pub enum Place {
    /// None.
    Start,
    /// The line `nodes` alone.
    Head,
    /// The lines `nodes` and `cache` alone.
    Outside,
    /// The line `node` of this node, and then perhaps statements of its block.
    Inside(NodeNo),
}
