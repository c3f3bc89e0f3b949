//! What keeps a node waiting.
use crate::NodeNo;
use crate::name::Name;

/// The cause for which a node waits.
#[derive(Clone, Copy, Debug, PartialEq, Eq)]
pub enum Blocked {
    /// The node waits for a section of the region; `holder` is the least other node that has one open.
    Region {
        node: NodeNo,
        name: Name,
        holder: NodeNo,
    },
    /// The node waits in the round; `absent` is the least node that hasn't come to it.
    Round {
        node: NodeNo,
        round: u64,
        absent: NodeNo,
    },
}
