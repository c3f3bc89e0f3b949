//! The words in which a region's home and the other nodes keep account of its copies.
use crate::NodeNo;

/// The sections of one region that are open at one node.
#[derive(Clone, Copy, Debug, PartialEq, Eq)]
pub enum Section {
    Closed,
    /// So many read sections.
    Reading(u32),
    Writing,
}

/// What the home has asked of a copy that it lists: nothing, to come back, or to become a shared one.
#[derive(Clone, Copy, Debug, PartialEq, Eq)]
pub enum Mark {
    Plain,
    Recalled,
    Yielding,
}

/// A copy as the home lists it. The version is the number of its grant.
#[derive(Clone, Copy, Debug, PartialEq, Eq)]
pub struct Listing {
    pub exclusive: bool,
    pub version: u64,
    pub mark: Mark,
}

/// An ask as it stands in the home's queue: who asks, whether to write or to read, and the version of
/// the shared copy that it has and would write, else 0.
#[derive(Clone, Copy, Debug, PartialEq, Eq)]
pub struct Asked {
    pub node: NodeNo,
    pub write: bool,
    pub have: u64,
}

/// A recall or a yield that came while its node asks, and may be for the copy that is to be granted.
#[derive(Clone, Copy, Debug, PartialEq, Eq)]
pub struct Due {
    pub version: u64,
    pub yields: bool,
}
