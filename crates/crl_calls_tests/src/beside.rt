//! Another pass uses a caller's node.
ghost use Rattle.std.specs.Prelude.{◌<◌};
ghost use Rattle.crl_cluster.specs.Clusters.{node_count, IsOf};

use crate::callers::Nodes;
use crl_cluster::Pass;
use crl_guard::{Reading, Standing, Writing};
use crl_model::NodeNo;
use crl_model::activity::Answer;
use crl_model::call::{Call, Refusal};
use std::sync::Wait;
use std::thread;

/// Why it is a refusal, if it is one. The answer is let go.
fn refusal_of(answer: Answer<Reading, Writing>) -> Option<Refusal> {
    match answer {
        Answer::Refused(why) => Some(why),
        other => {
            let mut standing = Standing::new();
            standing.ready(other);
            None
        }
    }
}

/// The pass makes the call at the node, if it can now.
pub fn begin(nodes: &Nodes, pass: &mut Pass, node: NodeNo, call: Call) -> bool
    requires here { IsOf nodes.now pass.old }
    requires node { node < node_count nodes.now }
    ensures here { IsOf nodes.now pass.new }
{
    match nodes.try_call(pass, node, call) {
        Ok(answer) => refusal_of(answer).is_none(),
        Err(refused) => {
            drop(refused.back);
            false
        }
    }
}

/// The pass takes the answer of the node as soon as there is one: why it is a refusal.
pub fn collected<R: Wait>(rt: &R, nodes: &Nodes, pass: &mut Pass, node: NodeNo) -> Option<Refusal>
    requires here { IsOf nodes.now pass.old }
    requires node { node < node_count nodes.now }
    ensures here { IsOf nodes.now pass.new }
{
    for _ in rt.forever() {
        if let Ok(answer) = nodes.try_collect(pass, node) {
            return refusal_of(answer);
        }
        thread::yield_now();
    }
    unreachable!()
}
