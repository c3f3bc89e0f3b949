//! Who has one region.
ghost use Rattle.std.specs.Prelude.{◌≡◌, ◌<◌, ◌≤◌, ◌^◌, ◌==◌, ℕ, if◌then◌else◌, IsTrue};
ghost use Rattle.crl_model.specs.declared.stage.Stage.TheVariants.{Gone};
ghost use Rattle.crl_protocol.specs.Lifetimes.{no_lifetime, new_lifetime, lifetime_with_asker, lifetime_begins_delete, lifetime_takes_purged};
ghost use Rattle.crl_stages.specs.NodeSets.{has_node};
ghost use Rattle.crl_stages.specs.RowLifetimes.{row_lifetime, RowFits};

use crate::node_set::NodeSet;
use crl_model::NodeNo;
use crl_model::stage::Stage;

/// Where one region stands, the nodes that asked for it, and those for which its delete waits.
#[derive(Clone, Copy, Debug)]
pub struct Row {
    pub(crate) stage: Stage,
    pub(crate) asked: NodeSet,
    pub(crate) missing: NodeSet,
}

impl Row {
    /// The row for which there is this stage, and which no node asked for.
    fn at_stage(stage: Stage) -> Row
        ensures lifetime { row_lifetime result ≡ record no_lifetime { stage = stage } }
        ensures fits { (nodes : ℕ) → RowFits nodes result }
    {
        Row {
            stage,
            asked: NodeSet::new(),
            missing: NodeSet::new(),
        }
    }

    /// The row of a new region.
    pub(crate) fn live() -> Row
        ensures lifetime { row_lifetime result ≡ new_lifetime }
        ensures fits { (nodes : ℕ) → RowFits nodes result }
    {
        Row::at_stage(Stage::Live)
    }

    /// The row of no region.
    pub(crate) fn unknown() -> Row
        ensures lifetime { row_lifetime result ≡ no_lifetime }
        ensures fits { (nodes : ℕ) → RowFits nodes result }
    {
        Row::at_stage(Stage::Unknown)
    }

    /// A node asks whether the region is there.
    #[tactic(auto, unfolding(crl_protocol::specs::Lifetimes::lifetime_with_asker))]
    pub(crate) fn with_asker(self, from: NodeNo) -> Row
        requires { from < 64 }
        ensures lifetime { row_lifetime result ≡ lifetime_with_asker from (row_lifetime self) }
        ensures fits { (nodes : ℕ) → from < nodes → RowFits nodes self → RowFits nodes result }
    {
        match self.stage {
            Stage::Live => Row {
                stage: self.stage,
                asked: self.asked.put(from),
                missing: self.missing,
            },
            _ => self,
        }
    }

    /// The delete of the region begins.
    #[tactic(auto, unfolding(crl_protocol::specs::Lifetimes::lifetime_begins_delete))]
    pub(crate) fn begin_delete(self, nodes: NodeNo, deleter: NodeNo) -> Row
        requires fits { RowFits nodes self }
        ensures lifetime { row_lifetime result ≡ lifetime_begins_delete nodes deleter (row_lifetime self) }
        ensures fits { RowFits nodes result }
    {
        if self.asked.is_empty() {
            return Row {
                stage: Stage::Gone,
                asked: self.asked,
                missing: self.missing,
            };
        }
        Row {
            stage: Stage::Going(deleter),
            asked: self.asked,
            missing: self.asked,
        }
    }

    /// A node for which the delete waits has parted with its copy.
    #[tactic(auto, unfolding(crl_protocol::specs::Lifetimes::lifetime_takes_purged))]
    pub(crate) fn take_purged(self, nodes: NodeNo, from: NodeNo) -> Row
        requires few { nodes ≤ 64 }
        requires fits { RowFits nodes self }
        requires missing { IsTrue (has_node self.missing from) }
        ensures lifetime { row_lifetime result ≡ lifetime_takes_purged nodes from (row_lifetime self) }
        ensures fits { RowFits nodes result }
    {
        let missing = self.missing.remove(from);
        let stage = stage_after(self.stage, missing);
        Row {
            stage,
            asked: self.asked,
            missing,
        }
    }
}

/// Where a region at this stage stands when its delete waits for these nodes.
fn stage_after(stage: Stage, missing: NodeSet) -> Stage
    ensures { result ≡ (if missing == 0 then Gone else stage) }
{
    if missing.is_empty() {
        Stage::Gone
    } else {
        stage
    }
}
