//! One node.
ghost use Rattle.std.specs.Prelude.{◌≡◌, ◌<◌, ◌≤◌, IfOk};
ghost use Rattle.crl_protocol.specs.Node.{new_node};
ghost use Rattle.crl_desk.specs.Desks.{state};

use crl_desk::Desk;
use crl_model::{NodeNo, OutOfMemory};
use std::alloc::Global;
use std::marker::Model;

/// One node. A contract sees it as what it keeps, and `state` of that is the protocol's node.
#[derive(Drop)]
pub struct Node {
    pub(crate) desk: Desk,
}

impl Model for Node {
    ghost use Rattle.crl_desk.specs.declared.desk.Desk.{Desk};
    ghost use Rattle.crl_node.specs.Nodes.{IsNode};

    ghost Value = { Desk };

    ghost view = { λ n. n.desk };

    ghost invariant = { λ n. IsNode n.desk };
}

impl Node {
    /// The node of this number, of so many nodes, with room for so many names in its cache. Nothing was done yet.
    ///
    /// # Errors
    ///
    /// `OutOfMemory`.
    pub fn start(
        alloc: Global,
        me: NodeNo,
        nodes: NodeNo,
        capacity: u16,
    ) -> Result<Node, OutOfMemory>
        requires node { me < nodes }
        requires few { nodes ≤ 64 }
        ensures { IfOk result (λ node. state node ≡ new_node nodes capacity me) }
    {
        let desk = Desk::new(alloc, me, nodes, capacity)?;
        Ok(Node { desk })
    }
}
