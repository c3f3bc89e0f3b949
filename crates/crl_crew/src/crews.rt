//! The workers of a cluster, as tasks.
ghost use Rattle.std.specs.Prelude.{◌≡◌, ◌<◌, ◌≤◌, ◌^◌, map, IfOk};
ghost use Rattle.std.specs.List.{All};
ghost use Rattle.crl_cluster.specs.Clusters.{node_count};
ghost use Rattle.crl_crew.specs.Working.{IsIdle, IsScriptOf};
ghost use Rattle.crl_crew.specs.Tasks.{IsReady, IsIdleEnd};

use crate::gate::Gate;
use crate::place::{Place, Scripted};
use crate::threads::{Task, run_all};
use crate::workers::work_on;
use crl_cluster::{Cluster, Luggage, Pass};
use crl_member::Member;
use crl_model::statement::Statement;
use crl_model::{NodeNo, OutOfMemory};
use std::alloc::Global;
use std::sync::Wait;
use std::sync::atomic::AtomicBool;
use std::thread::Threads;

/// A worker before its work, with its pass and the node at which it begins.
#[derive(Drop)]
pub(crate) struct Worker<'a, N: Member, S: Scripted, G, R> {
    rt: &'a R,
    alloc: Global,
    nodes: &'a Cluster<N, Place<S>>,
    pass: Pass,
    blocks: &'a [Vec<Statement>],
    first: NodeNo,
    gate: &'a G,
    stop: &'a AtomicBool,
}

impl<'a, N: Member, S: Scripted, G: Gate, R: Wait> Task for Worker<'a, N, S, G, R> {
    ghost use Rattle.std.specs.Prelude.{◌≡◌, ◌<◌, ◌^◌, map};
    ghost use Rattle.crl_cluster.specs.Clusters.{node_count};
    ghost use Rattle.crl_crew.specs.Working.{IsIdle, IsScriptOf};

    ghost can_run = { λ w. IsIdle w.nodes.now w.pass × (map (λ b. b.items) w.blocks.now ≡ S.blocks) × IsScriptOf (node_count w.nodes.now) S.blocks × (w.first < 2 ^ 15) };

    ghost leaves = { λ w pass. IsIdle w.nodes.now pass };

    fn run(self) -> Result<Pass, OutOfMemory> {
        let Worker {
            rt,
            alloc,
            nodes,
            pass,
            blocks,
            first,
            gate,
            stop,
        } = self;
        work_on(rt, alloc, nodes, pass, blocks, first, gate, stop)
    }
}

/// A worker.
fn ready_worker<'a, N: Member, S: Scripted, G: Gate, R: Wait>(
    rt: &'a R,
    alloc: Global,
    nodes: &'a Cluster<N, Place<S>>,
    pass: Pass,
    blocks: &'a [Vec<Statement>],
    first: NodeNo,
    gate: &'a G,
    stop: &'a AtomicBool,
) -> Worker<'a, N, S, G, R>
    requires { IsIdle nodes.now pass × (first < 2 ^ 15) }
    ensures { IsReady nodes.now (map (λ b. b.items) blocks.now) result }
{
    Worker {
        rt,
        alloc,
        nodes,
        pass,
        blocks,
        first,
        gate,
        stop,
    }
}

/// So many workers, each with a pass split from this one. Worker w begins at node w.
///
/// # Errors
///
/// `OutOfMemory`.
fn workers_for<'a, N: Member, S: Scripted, G: Gate, R: Wait>(
    rt: &'a R,
    alloc: Global,
    nodes: &'a Cluster<N, Place<S>>,
    pass: &mut Pass,
    blocks: &'a [Vec<Statement>],
    workers: u16,
    gate: &'a G,
    stop: &'a AtomicBool,
) -> Result<Vec<Worker<'a, N, S, G, R>>, OutOfMemory>
    requires idle { IsIdle nodes.now pass.old }
    requires few { workers ≤ 16 }
    ensures pass { IsIdle nodes.now pass.new }
    ensures crew { IfOk result (λ crew. All (IsReady nodes.now (map (λ b. b.items) blocks.now)) crew.items) }
{
    let mut crew = Vec::with_capacity(alloc, workers as usize)?;
    for first in 0..workers {
        let own = nodes.split(pass);
        crew.push(ready_worker(rt, alloc, nodes, own, blocks, first, gate, stop))?;
    }
    Ok(crew)
}

/// The passes that the workers left, joined to this one.
///
/// # Errors
///
/// `OutOfMemory` where a worker wanted memory.
fn joined_all<N: Member, T: Luggage>(
    nodes: &Cluster<N, T>,
    pass: Pass,
    ends: Vec<Result<Pass, OutOfMemory>>,
) -> Result<Pass, OutOfMemory>
    requires idle { IsIdle nodes.now pass }
    requires ends { All (IsIdleEnd nodes.now) ends.items }
    ensures { IfOk result (λ pass. IsIdle nodes.now pass) }
{
    let mut pass = pass;
    let mut ends = ends;
    while let Some(end) = ends.pop() {
        let other = end?;
        nodes.join(&mut pass, other);
    }
    Ok(pass)
}

/// So many workers at once, to their ends. What is left is their passes, joined to one.
///
/// # Errors
///
/// `OutOfMemory`.
pub(crate) fn work_all<
    N: Member + Send,
    S: Scripted + Send + Sync,
    G: Gate + Sync,
    R: Threads + Wait + Sync,
>(
    rt: &R,
    alloc: Global,
    nodes: &Cluster<N, Place<S>>,
    pass: Pass,
    blocks: &[Vec<Statement>],
    workers: u16,
    gate: &G,
    stop: &AtomicBool,
) -> Result<Pass, OutOfMemory>
where
    N::CallKit: Send,
    N::PieceKit: Send,
    requires idle { IsIdle nodes.now pass }
    requires blocks { map (λ b. b.items) blocks.now ≡ S.blocks }
    requires script { IsScriptOf (node_count nodes.now) S.blocks }
    requires few { workers ≤ 16 }
    ensures { IfOk result (λ pass. IsIdle nodes.now pass) }
{
    let mut pass = pass;
    let crew = workers_for(rt, alloc, nodes, &mut pass, blocks, workers, gate, stop)?;
    let ends = run_all(rt, crew)?;
    joined_all(nodes, pass, ends)
}
