//! The rows of collective calls: a node comes to a round, and is told what a round gives.
ghost use Rattle.std.specs.Prelude.{◌≡◌, ◌+◌, ◌^◌, ◌<◌, OnOk, OnErr};
ghost use Rattle.std.specs.Bool.{MatchBool};
ghost use Rattle.crl_model.specs.declared.call.Refusal.{Refusal};
ghost use Rattle.crl_model.specs.declared.entry.What.{What};
ghost use Rattle.crl_model.specs.declared.entry.Place.{Place};
ghost use Rattle.crl_model.specs.declared.collective.Fold.{Fold};
ghost use Rattle.crl_model.specs.Calls.{kind_of};
ghost use Rattle.crl_model.specs.Names.{at_node};
ghost use Rattle.crl_machine.specs.Judging.{Judges};
ghost use Rattle.crl_model.specs.FoldOf.{fold_of};
ghost use Rattle.crl_model.specs.Folds.{Agrees, IsMixed};
ghost use Rattle.crl_machine.specs.SingleMachine.{IsFull, part_at, parts_of, change};
ghost use Rattle.crl_machine.specs.Seen.{state};

use crate::machine::Machine;
use crate::round::{gives, have_come};
use crl_model::call::CallKind;
use crl_model::collective::{Fold, Part};
use crl_model::{NodeNo, OutOfMemory};

impl Machine {
    /// The node comes to its next round.
    #[tactic(auto, unfolding(crate::specs::Seen::state))]
    pub(crate) fn arrive(&mut self, node: NodeNo, part: Part) -> Result<(), OutOfMemory>
        requires node { node < self.old.nodes }
        ensures ok { OnOk result (state self.new ≡ change (state self.old) node (What.Come part)) }
        ensures err { OnErr result (state self.new ≡ state self.old) }
    {
        let row = &mut self.rows[node as usize];
        row.come(part)
    }

    /// Whether the node is told next what this round gives, and every node came to it.
    #[tactic(auto, unfolding(crate::specs::Seen::state))]
    fn is_full(&self, node: NodeNo, round: u64) -> bool
        requires node { node < self.now.nodes }
        ensures { MatchBool result (IsFull (state self.now) node round) (IsFull (state self.now) node round → ⊥) }
    {
        let row = &self.rows[node as usize];
        let came = row.came.len() as u64;
        if came == 0 || round != came || row.told != round - 1 {
            return false;
        }
        have_come(&self.rows, round)
    }

    /// Whether this is what a full round gives: `Mixed` where its parts don't agree.
    #[tactic(auto, unfolding(crate::specs::Seen::state))]
    fn gives(&self, node: NodeNo, round: u64, fold: &Fold) -> bool
        requires node { node < self.now.nodes }
        requires full { IsFull (state self.now) node round }
        ensures { MatchBool result (fold.now ≡ fold_of (parts_of (state self.now) round)) (fold.now ≡ fold_of (parts_of (state self.now) round) → ⊥) }
    {
        gives(&self.rows, round as usize - 1, fold)
    }

    /// Whether the parts of a full round agree, and give this.
    fn agrees(&self, node: NodeNo, round: u64, fold: &Fold) -> bool
        requires node { node < self.now.nodes }
        requires full { IsFull (state self.now) node round }
        ensures { MatchBool result (Agrees (parts_of (state self.now) round) fold.now) (Agrees (parts_of (state self.now) round) fold.now → ⊥) }
    {
        if *fold == Fold::Mixed {
            return false;
        }
        self.gives(node, round, fold)
    }

    /// Whether the parts of a full round don't agree.
    fn is_mixed(&self, node: NodeNo, round: u64) -> bool
        requires node { node < self.now.nodes }
        requires full { IsFull (state self.now) node round }
        ensures { MatchBool result (IsMixed (parts_of (state self.now) round)) (IsMixed (parts_of (state self.now) round) → ⊥) }
    {
        self.gives(node, round, &Fold::Mixed)
    }

    /// The node is told what the round gives.
    pub(crate) fn came(&mut self, node: NodeNo, round: u64, fold: &Fold) -> bool
        requires node { node < self.old.nodes }
        ensures { Judges (state self.old) node (What.Came round fold.now) (state self.new) result }
    {
        if !self.is_full(node, round) {
            return false;
        }
        if !self.agrees(node, round, fold) {
            return false;
        }
        self.tell(node);
        true
    }

    /// The node is told that the parts of the round don't agree.
    pub(crate) fn mixed(&mut self, node: NodeNo, kind: CallKind, round: u64) -> bool
        requires node { node < self.old.nodes }
        ensures { Judges (state self.old) node (What.Refused kind (Place.Round round) Refusal.Mixed) (state self.new) result }
    {
        if !self.is_full(node, round) {
            return false;
        }
        if !self.is_mixed(node, round) {
            return false;
        }
        if kind != self.kind_in(node, round) {
            return false;
        }
        self.tell(node);
        true
    }

    /// The call with which the node came to the round.
    #[tactic(auto, unfolding(crate::specs::Seen::state))]
    fn kind_in(&self, node: NodeNo, round: u64) -> CallKind
        requires node { node < self.now.nodes }
        requires full { IsFull (state self.now) node round }
        ensures { result ≡ kind_of (part_at (state self.now) node round) }
    {
        self.rows[node as usize].came[round as usize - 1].kind()
    }

    /// The node is told one result more.
    #[tactic(auto, unfolding(crate::specs::Seen::state))]
    fn tell(&mut self, node: NodeNo)
        requires node { node < self.old.nodes }
        requires more { (state self.old).told node + 1 < 2 ^ 64 }
        ensures { state self.new ≡ record (state self.old) { told = at_node (state self.old).told node ((state self.old).told node + 1) } }
    {
        let row = &mut self.rows[node as usize];
        row.told += 1;
    }
}
