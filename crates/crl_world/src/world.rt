//! The world, and what is asked of one node.
ghost use Rattle.std.specs.Prelude.{◌≡◌, ◌<◌, length};
ghost use Rattle.crl_protocol.specs.Verdict as verdict;
ghost use Rattle.crl_protocol.specs.World as world;

use crl_member::Member;
use crl_model::NodeNo;
use crl_model::call::{Call, Refusal};
use std::marker::Model;

/// 1 to 64 nodes, and how many events there were. A contract sees it as `Members`, and by `world_seen` as the
/// protocol's world.
#[derive(Drop)]
pub struct World<N: Member> {
    pub(crate) nodes: Vec<N>,
    pub(crate) events: u64,
    pub(crate) capacity: u16,
}

impl<N: Member> Model for World<N> {
    ghost use Rattle.std.specs.Prelude.{map};
    ghost use Rattle.crl_world.specs.Members.{Members};
    ghost use Rattle.crl_world.specs.Seen.{IsKept, world_of_nodes};

    ghost Value = { Members N };

    ghost view = { λ w. record { nodes = w.nodes.items; events = w.events; capacity = w.capacity } };

    ghost invariant = { λ w. IsKept (world_of_nodes (map N.state w.nodes.items) w.events w.capacity) };
}

impl<N: Member> World<N> {
    ghost use Rattle.crl_world.specs.Seen.{world_seen};

    /// The number of nodes, 1 to 64.
    pub fn count(&self) -> NodeNo
        ensures { result ≡ length self.now.nodes }
    {
        self.nodes.len() as NodeNo
    }

    /// The number of events so far.
    pub fn events(&self) -> u64
        ensures { result ≡ self.now.events }
    {
        self.events
    }

    /// The node of this number.
    pub(crate) fn node(&self, i: NodeNo) -> &N
        requires { i < length self.now.nodes }
        ensures { N.state result.now ≡ (world_seen N.state self.now).nodes i }
    {
        &self.nodes[i as usize]
    }

    /// The node may make a call.
    pub fn is_free(&self, i: NodeNo) -> bool
        requires { i < length self.now.nodes }
        ensures { result ≡ world.is_free ((world_seen N.state self.now).nodes i).activity }
    {
        self.node(i).is_free()
    }

    /// The node has an answer to take.
    pub fn is_ready(&self, i: NodeNo) -> bool
        requires { i < length self.now.nodes }
        ensures { result ≡ world.is_ready ((world_seen N.state self.now).nodes i).activity }
    {
        self.node(i).is_ready()
    }

    /// The reason for which the node refuses the call at once, if there is one.
    pub fn verdict(&self, i: NodeNo, call: &Call) -> Option<Refusal>
        requires { i < length self.now.nodes }
        ensures { result ≡ verdict.verdict ((world_seen N.state self.now).nodes i) call.now }
    {
        self.node(i).verdict(call)
    }
}
