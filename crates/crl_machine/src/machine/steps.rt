//! The rows of the table of legal steps, each judged and taken.
ghost use Rattle.std.specs.Prelude.{◌≡◌, ◌<◌, IsTrue, IfOk, OnErr, Err, true, false};
ghost use Rattle.std.specs.Bool.{MatchBool};
ghost use Rattle.crl_machine.specs.SingleMachine.{IsFree, IsSendable};
ghost use Rattle.crl_machine.specs.Seen.{state};
ghost use Rattle.crl_machine.specs.Judging.{Judges, NeedsMemory, is_free_row};

use crate::machine::{Judged, Machine};
use crate::share::Share;
use crl_model::bytes::Bytes;
use crl_model::collective::Part;
use crl_model::entry::What;
use crl_model::name::Name;
use crl_model::stage::Stage;
use crl_model::{BROADCAST_LIMIT, NodeNo, OutOfMemory, REGION_LIMIT};

impl Machine {
    /// The rows of a node that is free.
    pub(crate) fn judge_free(&mut self, node: NodeNo, what: &What) -> Result<bool, Judged>
        requires node { node < self.old.nodes }
        requires free { IsFree (state self.old) node }
        requires row { IsTrue (is_free_row what.now) }
        ensures judged { IfOk result (λ b. Judges (state self.old) node what.now (state self.new) b) }
        ensures memory { OnErr result ((result ≡ Err Judged.OutOfMemory) × NeedsMemory (state self.old) node what.now) }
        ensures err { OnErr result (state self.new ≡ state self.old) }
    {
        match what {
            What::Create { name, size } => match self.create(node, name, *size) {
                Ok(done) => Ok(done),
                Err(_) => Err(Judged::OutOfMemory),
            },
            What::Map { name, size } => match self.map(node, name, *size) {
                Ok(done) => Ok(done),
                Err(_) => Err(Judged::OutOfMemory),
            },
            What::Unmap { name } => Ok(self.unmap(node, name)),
            What::Flush { name } => Ok(self.flush(node, name)),
            What::StartRead { name } => Ok(self.start_read(node, name)),
            What::Read { name, seen } => Ok(self.read(node, name, seen)),
            What::StartWrite { name } => Ok(self.start_write(node, name)),
            What::Write {
                name,
                before,
                after,
            } => Ok(self.write(node, name, before, after)),
            What::Deleting { name } => Ok(self.deleting(node, name)),
            What::Come { part } => match self.come(node, part) {
                Ok(done) => Ok(done),
                Err(_) => Err(Judged::OutOfMemory),
            },
            What::Deleted { .. } | What::Came { .. } | What::Refused { .. } => Ok(false),
        }
    }

    #[tactic(auto, unfolding(crate::specs::Seen::state))]
    fn create(&mut self, node: NodeNo, name: &Name, size: u32) -> Result<bool, OutOfMemory>
        requires node { node < self.old.nodes }
        requires free { IsFree (state self.old) node }
        ensures judged { IfOk result (Judges (state self.old) node (What.Create name.now size) (state self.new)) }
        ensures err { OnErr result (state self.new ≡ state self.old) }
    {
        let used = self.used(node);
        if name.home != node || used == u32::MAX || size == 0 || size > REGION_LIMIT {
            return Ok(false);
        }
        if name.serial != used + 1 {
            return Ok(false);
        }
        self.ready_region(name, size)?;
        self.add_region(node, name, size);
        Ok(true)
    }

    #[tactic(auto, unfolding(crate::specs::Seen::state))]
    fn map(&mut self, node: NodeNo, name: &Name, size: u32) -> Result<bool, OutOfMemory>
        requires node { node < self.old.nodes }
        requires free { IsFree (state self.old) node }
        ensures judged { IfOk result (Judges (state self.old) node (What.Map name.now size) (state self.new)) }
        ensures memory { OnErr result ((state self.old).maps node name.now ≡ 0) }
        ensures err { OnErr result (state self.new ≡ state self.old) }
    {
        let Some(region) = self.regions.get(name) else {
            return Ok(false);
        };
        let share = region.share(node);
        if !region.is_there() || region.size() != size || share.maps == u32::MAX {
            return Ok(false);
        }
        self.ready_share(node, name)?;
        self.put_share(
            node,
            name,
            Share {
                maps: share.maps + 1,
                ..share
            },
        );
        Ok(true)
    }

    #[tactic(auto, unfolding(crate::specs::Seen::state))]
    fn unmap(&mut self, node: NodeNo, name: &Name) -> bool
        requires node { node < self.old.nodes }
        requires free { IsFree (state self.old) node }
        ensures { Judges (state self.old) node (What.Unmap name.now) (state self.new) result }
    {
        let share = self.share(node, name);
        if share.maps == 0 || share.reads > 0 || self.is_writing(node, name) {
            return false;
        }
        self.put_share(
            node,
            name,
            Share {
                maps: share.maps - 1,
                ..share
            },
        );
        true
    }

    #[tactic(auto, unfolding(crate::specs::Seen::state))]
    fn flush(&self, node: NodeNo, name: &Name) -> bool
        requires node { node < self.now.nodes }
        requires free { IsFree (state self.now) node }
        ensures { Judges (state self.now) node (What.Flush name.now) (state self.now) result }
    {
        let share = self.share(node, name);
        share.maps > 0 && share.reads == 0 && !self.is_writing(node, name)
    }

    #[tactic(auto, unfolding(crate::specs::Seen::state))]
    fn start_read(&mut self, node: NodeNo, name: &Name) -> bool
        requires node { node < self.old.nodes }
        requires free { IsFree (state self.old) node }
        ensures { Judges (state self.old) node (What.StartRead name.now) (state self.new) result }
    {
        let share = self.share(node, name);
        if share.maps == 0 || share.reads == u32::MAX || !self.is_unwritten(name) {
            return false;
        }
        self.put_share(
            node,
            name,
            Share {
                reads: share.reads + 1,
                ..share
            },
        );
        true
    }

    #[tactic(auto, unfolding(crate::specs::Seen::state))]
    fn read(&mut self, node: NodeNo, name: &Name, seen: &Bytes) -> bool
        requires node { node < self.old.nodes }
        requires free { IsFree (state self.old) node }
        ensures { Judges (state self.old) node (What.Read name.now seen.now) (state self.new) result }
    {
        let Some(region) = self.regions.get(name) else {
            return false;
        };
        let share = region.share(node);
        if share.reads == 0 || region.bytes(self.zeros.as_slice()) != seen.as_slice() {
            return false;
        }
        self.put_share(
            node,
            name,
            Share {
                reads: share.reads - 1,
                ..share
            },
        );
        true
    }

    #[tactic(auto, unfolding(crate::specs::Seen::state))]
    fn start_write(&mut self, node: NodeNo, name: &Name) -> bool
        requires node { node < self.old.nodes }
        requires free { IsFree (state self.old) node }
        ensures { Judges (state self.old) node (What.StartWrite name.now) (state self.new) result }
    {
        let share = self.share(node, name);
        if share.maps == 0 || !self.is_unused(name) {
            return false;
        }
        self.open_write(node, name);
        true
    }

    #[tactic(auto, unfolding(crate::specs::Seen::state))]
    fn write(&mut self, node: NodeNo, name: &Name, before: &Bytes, after: &Bytes) -> bool
        requires node { node < self.old.nodes }
        requires free { IsFree (state self.old) node }
        ensures { Judges (state self.old) node (What.Write name.now before.now after.now) (state self.new) result }
    {
        let Some(region) = self.regions.get(name) else {
            return false;
        };
        if region.writer != Some(node)
            || region.bytes(self.zeros.as_slice()) != before.as_slice()
            || before.len() != after.len()
        {
            return false;
        }
        self.close_write(node, name, after);
        true
    }

    fn deleting(&mut self, node: NodeNo, name: &Name) -> bool
        requires node { node < self.old.nodes }
        requires free { IsFree (state self.old) node }
        ensures { Judges (state self.old) node (What.Deleting name.now) (state self.new) result }
    {
        if self.stage(name) != Stage::Live {
            return false;
        }
        self.begin_delete(node, name);
        true
    }

    pub(crate) fn deleted(&mut self, node: NodeNo, name: &Name) -> bool
        requires node { node < self.old.nodes }
        ensures { Judges (state self.old) node (What.Deleted name.now) (state self.new) result }
    {
        if self.stage(name) != Stage::Going(node) {
            return false;
        }
        self.end_delete(node, name);
        true
    }

    fn come(&mut self, node: NodeNo, part: &Part) -> Result<bool, OutOfMemory>
        requires node { node < self.old.nodes }
        requires free { IsFree (state self.old) node }
        ensures judged { IfOk result (Judges (state self.old) node (What.Come part.now) (state self.new)) }
        ensures err { OnErr result (state self.new ≡ state self.old) }
    {
        if !is_sendable(part) {
            return Ok(false);
        }
        let copy = part.copy(self.alloc)?;
        self.arrive(node, copy)?;
        Ok(true)
    }
}

/// A broadcast has some bytes, and not too many.
fn is_sendable(part: &Part) -> bool
    ensures { MatchBool result (IsSendable part.now) (IsSendable part.now → ⊥) }
{
    match part {
        Part::Send(bytes) => !bytes.is_empty() && bytes.len() <= BROADCAST_LIMIT,
        _ => true,
    }
}
