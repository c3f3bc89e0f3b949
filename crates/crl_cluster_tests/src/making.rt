//! Calls of nodes, with the names that they answer.
ghost use Rattle.std.specs.Prelude.{◌<◌};
ghost use Rattle.crl_cluster.specs.Clusters.{node_count, IsOf};

use crl_cluster::{Cluster, Pass, TryFault};
use crl_guard::{Reading, Writing};
use crl_model::NodeNo;
use crl_model::activity::Answer;
use crl_model::call::Call;
use crl_model::name::Name;
use crl_node::Node;

/// The nodes behind their turns, without luggage.
pub type Nodes = Cluster<Node, ()>;

/// The name of an answer that has one. Guards are let go.
pub fn name_of(answer: Answer<Reading, Writing>) -> Option<Name> {
    match answer {
        Answer::Made(name) => Some(name),
        Answer::Mapped { name, size: _ } => Some(name),
        Answer::Reading(guard) => {
            guard.discard();
            None
        }
        Answer::Writing(guard) => {
            guard.discard();
            None
        }
        Answer::Came { round: _, fold } => {
            drop(fold);
            None
        }
        Answer::Done | Answer::Refused(_) | Answer::Wait => None,
    }
}

/// The node makes the call. What it answers at once is a name, or none.
///
/// # Errors
///
/// Those of `try_call`; the call is let go.
pub fn make(
    nodes: &Nodes,
    pass: &mut Pass,
    node: NodeNo,
    call: Call,
) -> Result<Option<Name>, TryFault>
    requires here { IsOf nodes.now pass.old }
    requires node { node < node_count nodes.now }
    ensures here { IsOf nodes.now pass.new }
{
    match nodes.try_call(pass, node, call) {
        Ok(answer) => Ok(name_of(answer)),
        Err(refused) => Err(refused.why),
    }
}

/// A node creates a region, again and again until nobody else appends an event meanwhile.
pub fn create(nodes: &Nodes, pass: &mut Pass, node: NodeNo) -> Option<Name>
    requires here { IsOf nodes.now pass.old }
    requires node { node < node_count nodes.now }
    ensures here { IsOf nodes.now pass.new }
{
    for _ in 0..1000u32 {
        if let Ok(name) = make(nodes, pass, node, Call::Create { size: 8 }) {
            return name;
        }
    }
    None
}
