//! What a node has of a region.

/// How often the node has the region mapped, and how many read sections of it are open there.
#[derive(Clone, Copy, Debug, PartialEq, Eq)]
pub struct Share {
    pub maps: u32,
    pub reads: u32,
}

impl Share {
    /// The share of a node that never mapped the region.
    pub const BLANK: Share = Share { maps: 0, reads: 0 };
}
