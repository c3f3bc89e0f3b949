//! The single machine: one array of byte regions, against which every entry is judged.
ghost use Rattle.std.specs.Prelude.{◌≡◌, ◌<◌, ◌≤◌, ◌↔◌, IfOk};
ghost use Rattle.std.specs.Prelude.{ℕ, length, replicate, Some};
ghost use Rattle.crl_model.specs.declared.TheConstants.{NODE_LIMIT};
ghost use Rattle.crl_model.specs.declared.name.Name.{Name};
ghost use Rattle.crl_machine.specs.declared.region.Region.{Region};
ghost use Rattle.crl_table.specs.Tables.{table_of};
ghost use Rattle.crl_machine.specs.Regions.{TablesAgree, RegionsFit};

use crate::node_row::NodeRow;
use crate::region::Region;
use crate::share::Share;
use crl_model::bytes::Bytes;
use crl_model::entry::{Entry, What};
use crl_model::name::Name;
use crl_model::stage::Stage;
use crl_model::{NODE_LIMIT, NodeNo, OutOfMemory};
use crl_table::Table;
use std::alloc::Global;

mod refusals;
mod regions;
mod rounds;
mod steps;
mod writes;

/// Why an entry isn't taken: it is no legal step, or there was no memory to take it.
#[derive(Clone, Copy, Debug, PartialEq, Eq)]
pub enum Judged {
    Illegal,
    OutOfMemory,
}

/// The state of the single machine after a legal history: its regions by name, each with what every
/// node has of it, and what the nodes have done besides. An entry costs a number of steps that is
/// logarithmic in the regions, beside its bytes; that a round gives something costs one a node besides.
#[derive(Drop)]
pub struct Machine {
    alloc: Global,
    nodes: NodeNo,
    regions: Table<Region>,
    rows: Vec<NodeRow>,
    /// The bytes of a region that wasn't written yet: as many zeros as the largest has.
    zeros: Bytes,
    ghost rows_fit: { length rows.items ≡ nodes },
    ghost blank: { zeros ≡ replicate (length zeros) 0 },
    ghost regions_fit: { RegionsFit nodes (length zeros) (table_of regions) },
    ghost agree: { TablesAgree (table_of regions) rows.items },
    ghost few: { nodes ≤ NODE_LIMIT },
}

impl Machine {
    ghost use Rattle.std.specs.Prelude.{◌+◌, ◌-◌, ◌^◌, ◌↔◌, ◌≢◌, IsTrue, IsSome, IfSome, IfNone, OnOk, OnErr, Err, IsErrOf, true, false};
    ghost use Rattle.std.specs.Bool.{MatchBool};
    ghost use Rattle.crl_model.specs.Stages.{is_there};
    ghost use Rattle.crl_machine.specs.SingleMachine.{start, IsFree, IsLegal, IsUnwritten, IsUnused, after};
    ghost use Rattle.crl_machine.specs.Seen.{state};
    ghost use Rattle.crl_machine.specs.Judging.{Judges, NeedsMemory, the_share};

    /// The machine of so many nodes that have done nothing.
    ///
    /// # Errors
    ///
    /// `OutOfMemory`.
    #[tactic(auto, unfolding(crate::specs::Seen::state))]
    pub fn new(alloc: Global, nodes: NodeNo) -> Result<Machine, OutOfMemory>
        requires some { 1 ≤ nodes }
        requires few { nodes ≤ NODE_LIMIT }
        ensures { IfOk result (λ m. state m ≡ start nodes) }
    {
        let mut rows = Vec::with_capacity(alloc, nodes as usize)?;
        for _ in 0..nodes {
            rows.push(NodeRow {
                used: 0,
                came: Vec::new(alloc),
                told: 0,
                deletes: None,
            })?;
        }
        Ok(Machine {
            alloc,
            nodes,
            regions: Table::new(alloc),
            rows,
            zeros: Bytes::zeros(alloc, 0)?,
        })
    }

    /// Judges an entry: `Ok` where it is a legal step, which the machine then takes.
    ///
    /// # Errors
    ///
    /// `Illegal` where the entry is no legal step; `OutOfMemory`, only for an entry that needs memory. Either
    /// leaves the machine as it was.
    #[tactic(auto, unfolding(crate::specs::Seen::state))]
    pub fn judge(&mut self, entry: &Entry) -> Result<(), Judged>
        ensures legal { OnOk result (IsLegal (state self.old) entry.now) }
        ensures taken { OnOk result (state self.new ≡ after (state self.old) entry.now) }
        ensures illegal { IsErrOf result Judged.Illegal → IsLegal (state self.old) entry.now → ⊥ }
        ensures memory { IsErrOf result Judged.OutOfMemory → NeedsMemory (state self.old) entry.now.node entry.now.what }
        ensures kept { OnErr result (state self.new ≡ state self.old) }
    {
        if entry.node >= self.nodes {
            return Err(Judged::Illegal);
        }
        if self.judge_row(entry.node, &entry.what)? {
            Ok(())
        } else {
            Err(Judged::Illegal)
        }
    }

    /// The bytes of a region that is there: its last write section's, or zeros.
    #[tactic(auto, unfolding(crate::specs::Seen::state))]
    pub fn bytes(&self, name: Name) -> Option<&[u8]>
        ensures there { IsSome result ↔ IsTrue (is_there ((state self.now).stage name)) }
        ensures bytes { IfSome result (λ b. b.now ≡ (state self.now).bytes name) }
    {
        let region = self.regions.get(&name)?;
        if region.is_there() {
            Some(region.bytes(self.zeros.as_slice()))
        } else {
            None
        }
    }

    /// The size of the region, in bytes; 0 where the name was never created.
    #[tactic(auto, unfolding(crate::specs::Seen::state))]
    pub fn size(&self, name: Name) -> u32
        ensures { result ≡ length ((state self.now).bytes name) }
    {
        match self.regions.get(&name) {
            Some(region) => region.size(),
            None => 0,
        }
    }

    /// The bytes that the region has or, where it was deleted, had; none where the name was never created.
    #[tactic(auto, unfolding(crate::specs::Seen::state))]
    pub fn last_bytes(&self, name: Name) -> &[u8]
        ensures { result.now ≡ (state self.now).bytes name }
    {
        match self.regions.get(&name) {
            Some(region) => region.bytes(self.zeros.as_slice()),
            None => &[],
        }
    }

    /// The number of nodes.
    #[tactic(auto, unfolding(crate::specs::Seen::state))]
    pub fn nodes(&self) -> NodeNo
        ensures { result ≡ (state self.now).nodes }
    {
        self.nodes
    }

    /// The last serial that the node has used, 0 at first.
    #[tactic(auto, unfolding(crate::specs::Seen::state))]
    pub fn used(&self, node: NodeNo) -> u32
        requires { node < (state self.now).nodes }
        ensures { result ≡ (state self.now).used node }
    {
        self.rows[node as usize].used
    }

    /// What the node has of the region; a blank share where there is no region.
    #[tactic(auto, unfolding(crate::specs::Seen::state))]
    pub fn share(&self, node: NodeNo, name: &Name) -> Share
        requires { node < (state self.now).nodes }
        ensures { result ≡ the_share (state self.now) node name.now }
    {
        match self.regions.get(name) {
            Some(region) => region.share(node),
            None => Share::BLANK,
        }
    }

    /// Whether the node has a write section of the region open.
    #[tactic(auto, unfolding(crate::specs::Seen::state))]
    pub fn is_writing(&self, node: NodeNo, name: &Name) -> bool
        ensures { result ≡ (state self.now).writes node name.now }
    {
        match self.regions.get(name) {
            Some(region) => region.writer == Some(node),
            None => false,
        }
    }

    /// Where the name stands.
    #[tactic(auto, unfolding(crate::specs::Seen::state))]
    pub fn stage(&self, name: &Name) -> Stage
        ensures { result ≡ (state self.now).stage name.now }
    {
        match self.regions.get(name) {
            Some(region) => region.stage,
            None => Stage::Unknown,
        }
    }

    /// The row of the entry, for a node that there is.
    fn judge_row(&mut self, node: NodeNo, what: &What) -> Result<bool, Judged>
        requires node { node < self.old.nodes }
        ensures judged { IfOk result (λ b. Judges (state self.old) node what.now (state self.new) b) }
        ensures memory { OnErr result ((result ≡ Err Judged.OutOfMemory) × NeedsMemory (state self.old) node what.now) }
        ensures err { OnErr result (state self.new ≡ state self.old) }
    {
        match what {
            What::Deleted { name } => Ok(self.deleted(node, name)),
            What::Came { round, fold } => Ok(self.came(node, *round, fold)),
            What::Refused { kind, place, why } => Ok(self.refused(node, *why, *kind, place)),
            _ => {
                if self.is_free(node) {
                    self.judge_free(node, what)
                } else {
                    Ok(false)
                }
            }
        }
    }

    /// The node waits for no result, and for no delete of its own.
    #[tactic(auto, unfolding(crate::specs::Seen::state))]
    fn is_free(&self, node: NodeNo) -> bool
        requires { node < self.now.nodes }
        ensures { MatchBool result (IsFree (state self.now) node) (IsFree (state self.now) node → ⊥) }
    {
        let row = &self.rows[node as usize];
        row.came.len() as u64 <= row.told && row.deletes.is_none()
    }

    /// No write section of the region is open at any node.
    #[tactic(auto, unfolding(crate::specs::Seen::state))]
    fn is_unwritten(&self, name: &Name) -> bool
        ensures { MatchBool result (IsUnwritten (state self.now) name.now) (IsUnwritten (state self.now) name.now → ⊥) }
    {
        match self.regions.get(name) {
            Some(region) => region.writer.is_none(),
            None => true,
        }
    }

    /// No section of the region is open at any node.
    #[tactic(auto, unfolding(crate::specs::Seen::state))]
    fn is_unused(&self, name: &Name) -> bool
        ensures { MatchBool result (IsUnused (state self.now) name.now) (IsUnused (state self.now) name.now → ⊥) }
    {
        match self.regions.get(name) {
            Some(region) => region.writer.is_none() && region.readers == 0,
            None => true,
        }
    }
}
