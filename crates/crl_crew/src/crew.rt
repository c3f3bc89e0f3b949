//! The work of a script.
ghost use Rattle.std.specs.Prelude.{◌≡◌, ◌<◌, ◌≤◌, ◌^◌, false, length, map, IfOk, MatchResult};
ghost use Rattle.crl_deeds.specs.Laws.{AreStatements};
ghost use Rattle.crl_stuck.specs.Ends.{statements_in};
ghost use Rattle.crl_world.specs.Seen.{world_seen};
ghost use Rattle.crl_cluster.specs.Starting.{shape_with};
ghost use Rattle.crl_run.specs.Playing.{AreShort};
ghost use Rattle.crl_run.specs.Finishing.{IsReportOfSome, IsFaultOfSome};
ghost use Rattle.crl_crew.specs.Ending.{IsEnd, places_stand};

use crate::crews::work_all;
use crate::ending::{close_all, players_of};
use crate::gate::Gate;
use crate::place::{Place, Scripted};
use crl_cluster::{Closed, Cluster};
use crl_member::Member;
use crl_model::report::Report;
use crl_model::statement::Statement;
use crl_model::{NodeNo, OutOfMemory};
use crl_plays::plays_are_runs;
use crl_run::{RunFault, finish};
use std::alloc::Global;
use std::marker::Brand;
use std::sync::Wait;
use std::sync::atomic::AtomicBool;
use std::thread::Threads;

/// A new cluster is driven by so many workers, and closed.
///
/// # Errors
///
/// `OutOfMemory`.
fn drive<N: Member + Send, G: Gate + Sync, R: Threads + Wait + Sync, S: Scripted + Send + Sync>(
    rt: &R,
    alloc: Global,
    blocks: &[Vec<Statement>],
    nodes: NodeNo,
    capacity: u16,
    workers: u16,
    gate: &G,
) -> Result<Closed<N, Place<S>>, OutOfMemory>
where
    N::CallKit: Send,
    N::PieceKit: Send,
    requires nodes { (0 < nodes) × (nodes ≤ 64) × (length blocks.now ≡ nodes) }
    requires workers { (0 < workers) × (workers ≤ 16) }
    requires statements { AreStatements (map (λ b. b.items) blocks.now) }
    requires short { AreShort (map (λ b. b.items) blocks.now) }
    requires script { map (λ b. b.items) blocks.now ≡ S.blocks }
    ensures { IfOk result (λ closed. IsEnd (places_stand S.blocks) (shape_with nodes capacity) (world_seen N.state closed.world) closed.luggage.items) }
{
    let Ok((cluster, first)) = Cluster::<N, Place<S>>::start(alloc, nodes, capacity) else {
        return Err(OutOfMemory);
    };
    let stop = AtomicBool::new(false);
    let pass = work_all(rt, alloc, &cluster, first, blocks, workers, gate, &stop)?;
    close_all(rt, alloc, cluster, pass)
}

/// What is left after the workers is done by the first choices, and the report is made.
///
/// # Errors
///
/// As of `work`.
fn report_of<N: Member, S: Scripted>(
    alloc: Global,
    blocks: &[Vec<Statement>],
    nodes: NodeNo,
    capacity: u16,
    closed: Closed<N, Place<S>>,
) -> Result<Report, RunFault>
    requires nodes { (0 < nodes) × (nodes ≤ 64) × (length blocks.now ≡ nodes) }
    requires statements { AreStatements (map (λ b. b.items) blocks.now) }
    requires short { AreShort (map (λ b. b.items) blocks.now) }
    requires few { statements_in nodes (map (λ b. b.items) blocks.now) ≤ 2 ^ 40 }
    requires script { map (λ b. b.items) blocks.now ≡ S.blocks }
    requires end { IsEnd (places_stand S.blocks) (shape_with nodes capacity) (world_seen N.state closed.world) closed.luggage.items }
    ensures { let all = map (λ b. b.items) blocks.now in
        MatchResult result (IsReportOfSome nodes capacity all false) (IsFaultOfSome nodes capacity all) }
{
    plays_are_runs();
    let Closed { world, luggage } = closed;
    match players_of(alloc, luggage) {
        Ok(players) => finish(alloc, blocks, world, players),
        Err(_) => Err(RunFault::OutOfMemory),
    }
}

/// `work`, where the script has a name.
///
/// # Errors
///
/// As of `work`.
fn work_as<N: Member + Send, G: Gate + Sync, R: Threads + Wait + Sync, S: Scripted + Send + Sync>(
    rt: &R,
    alloc: Global,
    blocks: &[Vec<Statement>],
    nodes: NodeNo,
    capacity: u16,
    workers: u16,
    gate: &G,
) -> Result<Report, RunFault>
where
    N::CallKit: Send,
    N::PieceKit: Send,
    requires nodes { (0 < nodes) × (nodes ≤ 64) × (length blocks.now ≡ nodes) }
    requires workers { (0 < workers) × (workers ≤ 16) }
    requires statements { AreStatements (map (λ b. b.items) blocks.now) }
    requires short { AreShort (map (λ b. b.items) blocks.now) }
    requires few { statements_in nodes (map (λ b. b.items) blocks.now) ≤ 2 ^ 40 }
    requires script { map (λ b. b.items) blocks.now ≡ S.blocks }
    ensures { let all = map (λ b. b.items) blocks.now in
        MatchResult result (IsReportOfSome nodes capacity all false) (IsFaultOfSome nodes capacity all) }
{
    match drive::<N, G, R, S>(rt, alloc, blocks, nodes, capacity, workers, gate) {
        Ok(closed) => report_of(alloc, blocks, nodes, capacity, closed),
        Err(_) => Err(RunFault::OutOfMemory),
    }
}

/// The run of a script by `workers` threads, 1 to 16, which drive all nodes together: the report of the whole, in which no
/// node is blocked. `blocks` has the statements of each of 1 to 64 nodes, at most 2^40 in all, and each cache has room for
/// `capacity` names. The gate is called before each statement, with the node's turn held.
///
/// The report is that of a complete run that the script and some order of steps choose. Each worker may drive every node,
/// so one can finish all; what they leave is done by the first choice. Nothing says that the workers get on.
///
/// # Errors
///
/// `Stuck` with the report where the run ends with nodes that aren't finished; else `OutOfMemory`.
pub fn work<N: Member + Send, G: Gate + Sync, R: Threads + Wait + Sync>(
    rt: &R,
    alloc: Global,
    blocks: &[Vec<Statement>],
    nodes: NodeNo,
    capacity: u16,
    workers: u16,
    gate: &G,
) -> Result<Report, RunFault>
where
    N::CallKit: Send,
    N::PieceKit: Send,
    requires nodes { (0 < nodes) × (nodes ≤ 64) × (length blocks.now ≡ nodes) }
    requires workers { (0 < workers) × (workers ≤ 16) }
    requires statements { AreStatements (map (λ b. b.items) blocks.now) }
    requires short { AreShort (map (λ b. b.items) blocks.now) }
    requires few { statements_in nodes (map (λ b. b.items) blocks.now) ≤ 2 ^ 40 }
    ensures { let all = map (λ b. b.items) blocks.now in
        MatchResult result (λ printed. IsReportOfSome nodes capacity all false printed) (IsFaultOfSome nodes capacity all) }
{
    work_as::<N, G, R, Brand>(rt, alloc, blocks, nodes, capacity, workers, gate)
}
