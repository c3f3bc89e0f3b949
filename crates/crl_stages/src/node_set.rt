//! Sets of nodes.
ghost use Rattle.std.specs.Prelude.{◌≡◌, ◌<◌, ◌≤◌, ◌^◌, ◌==◌, ℕ, IsTrue, true, false};
ghost use Rattle.crl_model.specs.Names.{at_node};
ghost use Rattle.crl_protocol.specs.Lifetimes.{nobody};
ghost use Rattle.crl_stages.specs.NodeSets.{has_node};

use crl_model::NodeNo;
use std::marker::Model;

/// A set of nodes below 64, a bit for each. A contract sees it as the number with these bits.
#[derive(Clone, Copy, Debug)]
pub struct NodeSet {
    bits: u64,
}

impl Model for NodeSet {
    ghost use Rattle.std.specs.Prelude.{ℕ};

    ghost Value = { ℕ };

    ghost view = { λ s. s.bits };

    ghost inverse = { λ n. record { bits = n } };
}

impl NodeSet {
    /// The empty set.
    #[tactic(auto, using(crate::proofs::Bits::nobody_there))]
    pub fn new() -> NodeSet
        ensures value { result ≡ 0 }
        ensures members { has_node result ≡ nobody }
    {
        NodeSet { bits: 0 }
    }

    /// Whether the node is in the set.
    #[tactic(auto, using(std::proofs::lemmas::Nat::Bits::shr_and_one))]
    pub fn has(self, node: NodeNo) -> bool
        requires { node < 64 }
        ensures { result ≡ has_node self node }
    {
        (self.bits >> node) & 1 == 1
    }

    /// The set with the node.
    pub fn put(self, node: NodeNo) -> NodeSet
        requires { node < 64 }
        ensures members { has_node result ≡ at_node (has_node self) node true }
        ensures below { (nodes : ℕ) → node < nodes → self < 2 ^ nodes → result < 2 ^ nodes }
    {
        NodeSet {
            bits: self.bits | (1 << node),
        }
    }

    /// The set without the node, which is in it.
    pub fn remove(self, node: NodeNo) -> NodeSet
        requires node { node < 64 }
        requires there { IsTrue (has_node self node) }
        ensures members { has_node result ≡ at_node (has_node self) node false }
        ensures below { (nodes : ℕ) → node < nodes → self < 2 ^ nodes → result < 2 ^ nodes }
    {
        NodeSet {
            bits: self.bits ^ (1 << node),
        }
    }

    /// Whether no node is in the set.
    pub fn is_empty(self) -> bool
        ensures { result ≡ (self == 0) }
    {
        self.bits == 0
    }
}
