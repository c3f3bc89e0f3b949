//! The words in which a node keeps account of the regions that it has.
use crate::name::Name;

/// A region that a node has mapped. It is doomed if the node was told of its delete: once unmapped, it is
/// forgotten.
#[derive(Clone, Copy, Debug, PartialEq, Eq)]
pub struct Mapping {
    /// In bytes.
    pub size: u32,
    /// How many maps weren't undone yet.
    pub count: u32,
    pub doomed: bool,
}

/// A region that a node has unmapped, and whose copy it keeps.
#[derive(Clone, Copy, Debug, PartialEq, Eq)]
pub struct Cached {
    pub name: Name,
    /// In bytes.
    pub size: u32,
}
