//! A new cluster, with a caller for each node.
ghost use Rattle.std.specs.Prelude.{◌≡◌, IfOk, MatchResult};
ghost use Rattle.crl_turns.specs.Plays.{blank_view};
ghost use Rattle.crl_world.specs.Starting.{IsNotStarted};
ghost use Rattle.crl_cluster.specs.Clusters.{view_of, node_count, IsOf};
ghost use Rattle.crl_calls.specs.Callers.{AreNewCallers, HasCallers};

use crate::caller::Caller;
use crl_cluster::{Cluster, Pass};
use crl_member::Member;
use crl_model::{NodeNo, OutOfMemory};
use crl_world::StartFault;
use std::alloc::Global;

/// The callers of a new cluster, by number.
fn new_callers<N: Member>(
    alloc: Global,
    cluster: &Cluster<N, ()>,
    mut pass: Pass,
) -> Result<Vec<Caller>, OutOfMemory>
    requires here { IsOf cluster.now pass }
    requires new { view_of pass ≡ blank_view }
    ensures { IfOk result (λ callers. AreNewCallers cluster.now (node_count cluster.now) callers.items) }
{
    let count = cluster.count(&pass);
    let mut callers = Vec::with_capacity(alloc, count as usize)?;
    for node in 0..count {
        callers.push(Caller {
            node,
            pass: cluster.split(&mut pass),
            spent: false,
        })?;
    }
    Ok(callers)
}

/// So many nodes, each with room for so many names in its cache, to which nothing happened; and a caller for each, by number.
///
/// # Errors
///
/// `BadNodes` where there are to be 0 nodes, or more than 64; else `OutOfMemory`.
pub fn callers<N: Member>(
    alloc: Global,
    nodes: NodeNo,
    capacity: u16,
) -> Result<(Cluster<N, ()>, Vec<Caller>), StartFault>
    ensures { MatchResult result (λ made. HasCallers nodes capacity made.0 made.1.items) (IsNotStarted nodes) }
{
    match Cluster::start(alloc, nodes, capacity) {
        Ok((cluster, pass)) => match new_callers(alloc, &cluster, pass) {
            Ok(callers) => Ok((cluster, callers)),
            Err(_) => Err(StartFault::OutOfMemory),
        },
        Err(why) => Err(why),
    }
}
