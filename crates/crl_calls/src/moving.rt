//! Pieces go on their way: a caller that waits carries and handles them, at all nodes.
ghost use Rattle.std.specs.Prelude.{◌≡◌, ◌<◌, Err, MatchResult, OnErr};
ghost use Rattle.crl_cluster.specs.declared.faults.StepFault.TheVariants as fault;
ghost use Rattle.crl_cluster.specs.declared.faults.TryFault.TheVariants.{Step};
ghost use Rattle.crl_cluster.specs.Clusters.{view_of, node_count, IsOf};
ghost use Rattle.crl_calls.specs.Trails.{Moves, MovesToTheEnd};

use crl_cluster::{Cluster, Pass, StepFault, TryFault};
use crl_member::Member;
use crl_model::NodeNo;
use std::thread;

/// The history has 2^62 events.
#[derive(Drop)]
pub(crate) struct Full;

/// Whether an event fits. What else was in its way passes.
pub(crate) fn full_if(answer: Result<(), TryFault>) -> Result<(), Full>
    ensures { OnErr result (answer ≡ Err (Step fault.Spent)) }
{
    match answer {
        Err(TryFault::Step(StepFault::Spent)) => Err(Full),
        Ok(()) | Err(_) => Ok(()),
    }
}

/// The first piece of each of the node's boxes goes on, where that can be done now.
fn move_at<N: Member>(cluster: &Cluster<N, ()>, pass: &mut Pass, node: NodeNo) -> Result<(), Full>
    requires here { IsOf cluster.now pass.old }
    requires node { node < node_count cluster.now }
    ensures here { IsOf cluster.now pass.new }
    ensures told { MatchResult result (λ _. Moves (view_of pass.old) (view_of pass.new)) (λ _. MovesToTheEnd (view_of pass.old) (view_of pass.new)) }
{
    match full_if(cluster.try_handle(pass, node, 0)) {
        Ok(()) => full_if(cluster.try_carry(pass, node, 0)),
        Err(Full) => Err(Full),
    }
}

/// The first piece of each box goes on, where that can be done now. Then another thread may go on.
pub(crate) fn move_all<N: Member>(cluster: &Cluster<N, ()>, pass: &mut Pass) -> Result<(), Full>
    requires here { IsOf cluster.now pass.old }
    ensures here { IsOf cluster.now pass.new }
    ensures told { MatchResult result (λ _. Moves (view_of pass.old) (view_of pass.new)) (λ _. MovesToTheEnd (view_of pass.old) (view_of pass.new)) }
{
    for node in 0..cluster.count(pass) {
        if let Err(Full) = move_at(cluster, pass, node) {
            return Err(Full);
        }
    }
    thread::yield_now();
    Ok(())
}
