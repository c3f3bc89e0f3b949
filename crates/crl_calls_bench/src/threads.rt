//! The nodes, with a thread and a caller for each.
ghost use Rattle.std.specs.Prelude.{All};
ghost use Rattle.crl_calls.specs.Callers.{IsCallerOf};

use crate::failed::Failed;
use crate::parts::take_part;
use crate::plan::Plan;
use crl_calls::{Caller, callers};
use crl_cluster::Cluster;
use crl_node::Node;
use std::alloc::Global;
use std::sync::Wait;
use std::thread::{Threads, map_vec};

/// The nodes behind their turns.
pub type Nodes = Cluster<Node, ()>;

/// Room for so many names in each node's cache.
const CACHE: u16 = 16;

/// The threads take their parts at once. What each adds to the sum.
fn all_parts<R: Threads + Wait + Sync>(
    rt: &R,
    nodes: &Nodes,
    list: Vec<Caller>,
    plan: Plan,
) -> Result<Vec<Result<u64, Failed>>, Failed>
    requires { All (λ who. IsCallerOf nodes.now who) list.items }
{
    let ends = map_vec(
        rt,
        list,
        &move |who: Caller| -> Result<u64, Failed>
            requires { IsCallerOf nodes.now who }
        {
            let mut who = who;
            take_part(rt, nodes, &mut who, plan)
        },
    )?;
    Ok(ends)
}

/// So many threads do the work of the plan: the sum of their parts.
///
/// # Errors
///
/// `Failed` where a call of a thread failed, or memory was wanting.
#[tactic(auto, using(crate::proofs::Lists::all_callers))]
pub fn done_by_all<R: Threads + Wait + Sync>(
    rt: &R,
    alloc: Global,
    plan: Plan,
) -> Result<u64, Failed> {
    let (nodes, list) = callers(alloc, plan.threads, CACHE)?;
    let parts = all_parts(rt, &nodes, list, plan)?;
    let mut sum = 0u64;
    for part in parts.iter() {
        sum = sum.wrapping_add((*part)?);
    }
    Ok(sum)
}
