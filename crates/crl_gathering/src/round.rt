//! The round that is gathered.
ghost use Rattle.std.specs.Prelude.{◌≡◌, ◌+◌, ◌<◌, ◌≤◌, ◌^◌, IfOk, IfSome, Some, length};
ghost use Rattle.crl_model.specs.declared.collective.Part.{Part};
ghost use Rattle.crl_model.specs.FoldOf.{fold_of};
ghost use Rattle.crl_protocol.specs.Gathering.{first_round, awaits};
ghost use Rattle.crl_protocol.specs.Places.{put};
ghost use Rattle.crl_gathering.specs.Lengths.{longest_sent, FoldFits};
ghost use Rattle.crl_gathering.specs.RoundState.{gathering_of, next_round, round_step, completes_round, are_there, present};

use crate::slots::{empty_slots, fold_slots, longest, others_there, slots_there};
use crl_model::collective::{Fold, Part};
use crl_model::{NodeNo, OutOfMemory};
use std::alloc::Global;
use std::marker::Model;

/// The round of collective calls that is gathered, from 1, with a place for the part of each node. A contract
/// sees it as a `RoundState`. Only `new` takes memory.
#[derive(Drop)]
pub struct Round {
    number: u64,
    nodes: NodeNo,
    parts: Vec<Option<Part>>,
}

impl Model for Round {
    ghost use Rattle.crl_gathering.specs.RoundState.{RoundState, AreParts};

    ghost Value = { RoundState };

    ghost view = { λ r. record { round = r.number; nodes = r.nodes; parts = r.parts.items } };

    ghost invariant = { λ r. AreParts r.nodes r.parts.items };
}

impl Round {
    /// The first round of so many nodes, to which none has come.
    ///
    /// # Errors
    ///
    /// `OutOfMemory`.
    pub fn new(alloc: Global, nodes: NodeNo) -> Result<Round, OutOfMemory>
        requires { nodes ≤ 64 }
        ensures gathering { IfOk result (λ round. gathering_of round ≡ first_round) }
        ensures nodes { IfOk result (λ round. round.nodes ≡ nodes) }
    {
        let parts = empty_slots(alloc, nodes as usize)?;
        Ok(Round {
            number: 1,
            nodes,
            parts,
        })
    }

    /// The number of the round.
    pub fn number(&self) -> u64
        ensures { result ≡ (gathering_of self.now).round }
    {
        self.number
    }

    /// Whether the node hasn't come to the round.
    #[tactic(auto, using(crate::proofs::Filling::at_is_read))]
    pub fn awaits(&self, node: NodeNo) -> bool
        requires { node < self.now.nodes }
        ensures { result ≡ awaits node (gathering_of self.now) }
    {
        match &self.parts[node as usize] {
            Some(_) => false,
            None => true,
        }
    }

    /// Whether with the part of this node all parts are there.
    pub fn is_last(&self, node: NodeNo) -> bool
        requires { node < self.now.nodes }
        ensures { (part : Part) → result ≡ completes_round node part self.now }
    {
        others_there(self.parts.as_slice(), node as usize)
    }

    /// The most bytes that one of the parts sends, 0 if none sends.
    pub fn broadcast_len(&self) -> usize
        ensures { result ≡ longest_sent self.now.parts }
    {
        longest(self.parts.as_slice())
    }

    /// The node has come, with this part.
    #[tactic(auto, using(crate::proofs::Filling::slots_put))]
    fn put(&mut self, node: NodeNo, part: Part)
        requires { node < self.old.nodes }
        ensures state { self.new ≡ record self.old { parts = put node (Some part) self.old.parts } }
        ensures places { length self.old.parts ≡ self.old.nodes }
    {
        self.parts[node as usize] = Some(part);
    }

    /// Whether all parts are there.
    fn is_whole(&self) -> bool
        ensures { result ≡ are_there self.now.parts }
    {
        slots_there(self.parts.as_slice())
    }

    /// What the parts of the round give. The next round begins.
    fn close(&mut self) -> Fold
        requires { self.old.round + 1 < 2 ^ 64 }
        ensures fold { result ≡ fold_of (present self.old.parts) }
        ensures gathering { gathering_of self.new ≡ next_round self.old }
        ensures nodes { self.new.nodes ≡ self.old.nodes }
    {
        self.number += 1;
        fold_slots(self.parts.as_mut_slice())
    }

    /// The part of a node comes. With the last of them the round gives its fold, and the next one begins. The
    /// bytes of a broadcast are moved out of their part and not copied.
    pub fn contribute(&mut self, node: NodeNo, part: Part) -> Option<Fold>
        requires node { node < self.old.nodes }
        requires number { self.old.round + 1 < 2 ^ 64 }
        ensures gathering { gathering_of self.new ≡ (round_step node part self.old).gathering }
        ensures fold { result ≡ (round_step node part self.old).fold }
        ensures nodes { self.new.nodes ≡ self.old.nodes }
        ensures bytes { IfSome result (FoldFits part self.old.parts) }
    {
        self.put(node, part);
        if self.is_whole() {
            Some(self.close())
        } else {
            None
        }
    }
}
