//! The changes of the machine's tables.
ghost use Rattle.std.specs.Prelude.{◌≡◌, ◌+◌, ◌<◌, ◌≤◌, true, false, length, replicate, IsSome, IsOk, OnOk};
ghost use Rattle.crl_model.specs.declared.TheConstants.{REGION_LIMIT};
ghost use Rattle.crl_model.specs.declared.entry.What.{What};
ghost use Rattle.crl_model.specs.Names.{at_node, at_name, at_pair};
ghost use Rattle.crl_table.specs.Tables.{table_of, HasPlace};
ghost use Rattle.crl_machine.specs.SingleMachine.{IsFree, IsUnwritten, change};
ghost use Rattle.crl_machine.specs.Seen.{state};
ghost use Rattle.crl_machine.specs.Judging.{with_share};
ghost use Rattle.crl_machine.specs.Regions.{HasShare};

use crate::machine::Machine;
use crate::region::Region;
use crate::share::Share;
use crl_model::bytes::Bytes;
use crl_model::name::Name;
use crl_model::stage::Stage;
use crl_model::{NodeNo, OutOfMemory, REGION_LIMIT};

impl Machine {
    /// Makes a place for the region, and as many zeros as it has bytes.
    #[tactic(auto, unfolding(crate::specs::Seen::state))]
    pub(crate) fn ready_region(&mut self, name: &Name, size: u32) -> Result<(), OutOfMemory>
        requires size { size ≤ REGION_LIMIT }
        ensures state { state self.new ≡ state self.old }
        ensures place { OnOk result (HasPlace name.now self.new.regions) }
        ensures zeros { OnOk result (size ≤ length self.new.zeros) }
    {
        self.regions.ready(name)?;
        self.ready_zeros(size)
    }

    /// Has at least so many zeros; their number at least doubles, up to what a region may have.
    #[tactic(auto, unfolding(crate::specs::Seen::state))]
    fn ready_zeros(&mut self, size: u32) -> Result<(), OutOfMemory>
        requires size { size ≤ REGION_LIMIT }
        ensures state { state self.new ≡ state self.old }
        ensures regions { self.new.regions ≡ self.old.regions }
        ensures zeros { OnOk result (size ≤ length self.new.zeros) }
    {
        let count = self.zeros.len();
        if size as usize <= count {
            return Ok(());
        }
        let more = (size as usize).max(2 * count).min(REGION_LIMIT as usize);
        self.zeros = Bytes::zeros(self.alloc, more)?;
        Ok(())
    }

    /// Adds a live region of zeros, the next of the node.
    #[tactic(auto, unfolding(crate::specs::Seen::state))]
    pub(crate) fn add_region(&mut self, node: NodeNo, name: &Name, size: u32)
        requires node { node < self.old.nodes }
        requires home { name.now.home ≡ node }
        requires serial { name.now.serial ≡ (state self.old).used node + 1 }
        requires some { 0 < size }
        requires few { size ≤ REGION_LIMIT }
        requires place { HasPlace name.now self.old.regions }
        requires zeros { size ≤ length self.old.zeros }
        ensures { state self.new ≡ change (state self.old) node (What.Create name.now size) }
    {
        self.regions.put(name, Region::new(self.alloc, size));
        let row = &mut self.rows[node as usize];
        row.used = name.serial;
    }

    /// Makes room for the node's share of the region.
    #[tactic(auto, unfolding(crate::specs::Seen::state))]
    pub(crate) fn ready_share(&mut self, node: NodeNo, name: &Name) -> Result<(), OutOfMemory>
        requires node { node < self.old.nodes }
        requires there { IsSome (table_of self.old.regions name.now) }
        ensures state { state self.new ≡ state self.old }
        ensures ok { OnOk result (HasShare node (table_of self.new.regions name.now)) }
        ensures succeeds { HasShare node (table_of self.old.regions name.now) → IsOk result }
    {
        match self.regions.get_mut(name) {
            Some(region) => region.ready(node),
            None => unreachable!(),
        }
    }

    /// Puts the node's share of the region.
    #[tactic(auto, unfolding(crate::specs::Seen::state))]
    pub(crate) fn put_share(&mut self, node: NodeNo, name: &Name, share: Share)
        requires shared { HasShare node (table_of self.old.regions name.now) }
        ensures { state self.new ≡ with_share (state self.old) node name.now share }
    {
        match self.regions.get_mut(name) {
            Some(region) => region.put_share(node, share),
            None => unreachable!(),
        }
    }

    /// Opens the node's write section of a region that has none.
    #[tactic(auto, unfolding(crate::specs::Seen::state))]
    pub(crate) fn open_write(&mut self, node: NodeNo, name: &Name)
        requires node { node < self.old.nodes }
        requires shared { HasShare node (table_of self.old.regions name.now) }
        requires unwritten { IsUnwritten (state self.old) name.now }
        ensures { state self.new ≡ record (state self.old) { writes = at_pair (state self.old).writes node name.now true } }
    {
        match self.regions.get_mut(name) {
            Some(region) => region.put_writer(Some(node)),
            None => unreachable!(),
        }
    }

    /// Closes the node's write section of the region, which then has these bytes.
    #[tactic(auto, unfolding(crate::specs::Seen::state))]
    pub(crate) fn close_write(&mut self, node: NodeNo, name: &Name, after: &Bytes)
        requires open { (state self.old).writes node name.now ≡ true }
        requires len { length ((state self.old).bytes name.now) ≡ length after.now }
        ensures { state self.new ≡ record (state self.old) {
          writes = at_pair (state self.old).writes node name.now false;
          bytes = at_name (state self.old).bytes name.now after.now;
        } }
    {
        match self.regions.get_mut(name) {
            Some(region) => {
                region.overwrite(after);
                region.put_writer(None);
            }
            None => unreachable!(),
        }
    }

    /// Begins the node's delete of a live region.
    #[tactic(auto, unfolding(crate::specs::Seen::state))]
    pub(crate) fn begin_delete(&mut self, node: NodeNo, name: &Name)
        requires node { node < self.old.nodes }
        requires free { IsFree (state self.old) node }
        requires live { (state self.old).stage name.now ≡ Stage.Live }
        ensures { state self.new ≡ record (state self.old) { stage = at_name (state self.old).stage name.now (Stage.Going node) } }
    {
        match self.regions.get_mut(name) {
            Some(region) => region.put_stage(Stage::Going(node)),
            None => unreachable!(),
        }
        let row = &mut self.rows[node as usize];
        row.deletes = Some(*name);
    }

    /// Ends the node's delete of the region.
    #[tactic(auto, unfolding(crate::specs::Seen::state))]
    pub(crate) fn end_delete(&mut self, node: NodeNo, name: &Name)
        requires node { node < self.old.nodes }
        requires going { (state self.old).stage name.now ≡ Stage.Going node }
        ensures { state self.new ≡ record (state self.old) { stage = at_name (state self.old).stage name.now Stage.Gone } }
    {
        match self.regions.get_mut(name) {
            Some(region) => region.put_stage(Stage::Gone),
            None => unreachable!(),
        }
        let row = &mut self.rows[node as usize];
        row.deletes = None;
    }
}
