//! New nodes, and callers of them.
ghost use Rattle.std.specs.Prelude.{IfOk, IfSome};
ghost use Rattle.crl_calls.specs.Callers.{IsCallerOf};
ghost use Rattle.crl_calls_tests.specs.Callers.{AreCallersOf, HasNodes};

use crl_calls::{Caller, callers};
use crl_cluster::Cluster;
use crl_model::NodeNo;
use crl_node::Node;
use crl_world::StartFault;
use std::alloc::Global;

/// The nodes behind their turns.
pub type Nodes = Cluster<Node, ()>;

/// So many nodes, with a caller for each.
///
/// # Errors
///
/// Those of `callers`.
pub fn nodes_with(alloc: Global, count: NodeNo) -> Result<(Nodes, Vec<Caller>), StartFault>
    ensures callers { IfOk result (λ made. AreCallersOf made.0 made.1.items) }
    ensures nodes { IfOk result (λ made. HasNodes made.0 count) }
{
    match callers(alloc, count, 16) {
        Ok((nodes, list)) => Ok((nodes, list)),
        Err(why) => Err(why),
    }
}

/// The last caller of the list.
pub fn last_of(nodes: &Nodes, list: &mut Vec<Caller>) -> Option<Caller>
    requires { AreCallersOf nodes.now list.old.items }
    ensures rest { AreCallersOf nodes.now list.new.items }
    ensures last { IfSome result (λ who. IsCallerOf nodes.now who) }
{
    let _nodes = nodes;
    list.pop()
}
