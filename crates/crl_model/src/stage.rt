//! Where the name of a region stands.
ghost use Rattle.std.specs.Prelude.{◌≡◌};
ghost use Rattle.crl_model.specs.Stages.{is_deleted};

use crate::NodeNo;

/// Where a name stands: no region has it; its region is there; the region is being deleted, by this
/// node; it was deleted.
#[derive(Clone, Copy, Debug, PartialEq, Eq)]
pub enum Stage {
    Unknown,
    Live,
    Going(NodeNo),
    Gone,
}

impl Stage {
    /// Whether the delete has begun.
    pub fn is_deleted(self) -> bool
        ensures { result ≡ is_deleted self }
    {
        matches!(self, Stage::Going(_) | Stage::Gone)
    }
}
