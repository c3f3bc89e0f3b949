//! What the single machine keeps of a node, besides its maps and sections.
ghost use Rattle.std.specs.Prelude.{◌≡◌, ◌++◌, [], ◌∷◌, OnOk, OnErr};

use crl_model::OutOfMemory;
use crl_model::collective::Part;
use crl_model::name::Name;

/// What a node has done: the serials that it has used, the parts with which it came to rounds, the
/// results that it was told, and the region that it is deleting.
#[derive(Drop)]
pub struct NodeRow {
    pub used: u32,
    pub came: Vec<Part>,
    pub told: u64,
    pub deletes: Option<Name>,
}

impl NodeRow {
    /// Comes to the next round with this part.
    ///
    /// # Errors
    ///
    /// `OutOfMemory`; then nothing changes.
    pub fn come(&mut self, part: Part) -> Result<(), OutOfMemory>
        ensures ok { OnOk result (self.new.came.items ≡ self.old.came.items ++ part ∷ []) }
        ensures err { OnErr result (self.new.came.items ≡ self.old.came.items) }
        ensures used { self.new.used ≡ self.old.used }
        ensures told { self.new.told ≡ self.old.told }
        ensures deletes { self.new.deletes ≡ self.old.deletes }
    {
        self.came.push(part)?;
        Ok(())
    }
}
