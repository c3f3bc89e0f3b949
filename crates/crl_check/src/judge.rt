//! Judging of entries that come one by one.
ghost use Rattle.std.specs.Prelude.{◌≡◌, ◌<◌, ◌≤◌, ◌++◌, ◌∷◌, [], List, IfOk, OnOk};
ghost use Rattle.crl_model.specs.declared.entry.Entry.{Entry};
ghost use Rattle.crl_machine.specs.SingleMachine.{State, start};
ghost use Rattle.crl_check.specs.Histories.{SaysOf};
ghost use Rattle.crl_check.specs.Judging.{HasJudged};

use crate::fault::CheckFault;
use crl_machine::machine::{Judged, Machine};
use crl_model::entry::Entry;
use crl_model::{NODE_LIMIT, NodeNo, OutOfMemory};
use std::alloc::Global;

/// What was judged of the entries so far. Behind the first that is no legal step none is judged.
#[derive(Drop)]
pub(crate) struct Judge {
    machine: Machine,
    /// How many entries there were, or how many before the first that is no legal step.
    legal: usize,
    /// Whether there was an entry that is no legal step.
    broken: bool,
}

impl Judge {
    /// The judge of a history of so many nodes that has no entry yet.
    pub(crate) fn new(alloc: Global, nodes: NodeNo) -> Result<Judge, OutOfMemory>
        requires some { 1 ≤ nodes }
        requires few { nodes ≤ NODE_LIMIT }
        ensures { IfOk result (λ judge. HasJudged (start nodes) [] judge) }
    {
        Ok(Judge {
            machine: Machine::new(alloc, nodes)?,
            legal: 0,
            broken: false,
        })
    }

    /// Judges the next entry.
    pub(crate) fn take(&mut self, entry: &Entry) -> Result<(), OutOfMemory>
        requires room { self.old.legal < usize.MAX }
        ensures { (s : State) (given : List Entry) → HasJudged s given self.old → OnOk result (HasJudged s (given ++ entry.now ∷ []) self.new) }
    {
        if self.broken {
            return Ok(());
        }
        match self.machine.judge(entry) {
            Ok(()) => self.legal += 1,
            Err(Judged::Illegal) => self.broken = true,
            Err(Judged::OutOfMemory) => return Err(OutOfMemory),
        }
        Ok(())
    }

    /// What is said of the entries.
    pub(crate) fn verdict(&self) -> Result<(), CheckFault>
        ensures { (s : State) (given : List Entry) → HasJudged s given self.now → SaysOf s given result }
    {
        if self.broken {
            return Err(CheckFault::Illegal(self.legal));
        }
        Ok(())
    }
}
