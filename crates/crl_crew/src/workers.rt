//! A worker goes round the nodes until it finds nothing to do.
ghost use Rattle.std.specs.Prelude.{◌≡◌, ◌<◌, ◌^◌, length, map, OnOk, IfOk};
ghost use Rattle.crl_protocol.specs.Chosen.{block_of};
ghost use Rattle.crl_cluster.specs.Clusters.{node_count};
ghost use Rattle.crl_crew.specs.Working.{IsIdle, IsScriptOf};

use crate::gate::Gate;
use crate::place::{Place, Scripted};
use crate::visiting::{Found, visit};
use crl_cluster::{Cluster, Pass};
use crl_member::Member;
use crl_model::statement::Statement;
use crl_model::{NodeNo, OutOfMemory};
use std::alloc::Global;
use std::sync::Wait;
use std::sync::atomic::{AtomicBool, Ordering};
use std::thread;

/// The more that was found of the two.
fn more_of(one: Found, other: Found) -> Found {
    match (one, other) {
        (Found::Work, _) => Found::Work,
        (_, Found::Work) => Found::Work,
        (Found::Busy, _) => Found::Busy,
        (_, Found::Busy) => Found::Busy,
        (Found::Nothing, Found::Nothing) => Found::Nothing,
    }
}

/// The statements of a node.
fn block_at(blocks: &[Vec<Statement>], node: NodeNo) -> &[Statement]
    requires { node < length blocks.now }
    ensures { result.now ≡ block_of (map (λ b. b.items) blocks.now) node }
{
    blocks[node as usize].as_slice()
}

/// All nodes, each once, from `first` on. The most that was found at one of them.
///
/// # Errors
///
/// `OutOfMemory`.
#[tactic(auto, using(crate::proofs::Taking::taken_of))]
fn go_round<N: Member, S: Scripted, G: Gate, R: Wait>(
    rt: &R,
    alloc: Global,
    nodes: &Cluster<N, Place<S>>,
    pass: &mut Pass,
    blocks: &[Vec<Statement>],
    first: NodeNo,
    gate: &G,
) -> Result<Found, OutOfMemory>
    requires idle { IsIdle nodes.now pass.old }
    requires blocks { map (λ b. b.items) blocks.now ≡ S.blocks }
    requires script { IsScriptOf (node_count nodes.now) S.blocks }
    requires first { first < 2 ^ 15 }
    ensures { OnOk result (IsIdle nodes.now pass.new) }
{
    let mut found = Found::Nothing;
    let count = nodes.count(pass);
    for k in 0..count {
        let node = (first + k) % count;
        let statements = block_at(blocks, node);
        let here = visit(rt, alloc, nodes, pass, node, statements, gate)?;
        found = more_of(found, here);
    }
    Ok(found)
}

/// One worker: it goes round the nodes from `first` on, and ends where it found nothing to do at any of them while nobody
/// appended an event. `stop` is set where a worker wants memory; then all end.
///
/// # Errors
///
/// `OutOfMemory`.
pub(crate) fn work_on<N: Member, S: Scripted, G: Gate, R: Wait>(
    rt: &R,
    alloc: Global,
    nodes: &Cluster<N, Place<S>>,
    pass: Pass,
    blocks: &[Vec<Statement>],
    first: NodeNo,
    gate: &G,
    stop: &AtomicBool,
) -> Result<Pass, OutOfMemory>
    requires idle { IsIdle nodes.now pass }
    requires blocks { map (λ b. b.items) blocks.now ≡ S.blocks }
    requires script { IsScriptOf (node_count nodes.now) S.blocks }
    requires first { first < 2 ^ 15 }
    ensures { IfOk result (λ pass. IsIdle nodes.now pass) }
{
    let mut pass = pass;
    for _ in rt.forever() {
        if stop.load(Ordering::SeqCst) {
            break;
        }
        let before = nodes.seen(&mut pass);
        let Ok(found) = go_round(rt, alloc, nodes, &mut pass, blocks, first, gate) else {
            stop.store(true, Ordering::SeqCst);
            return Err(OutOfMemory);
        };
        match found {
            Found::Nothing => {
                if nodes.seen(&mut pass) == before {
                    break;
                }
            }
            Found::Busy => thread::yield_now(),
            Found::Work => {}
        }
    }
    Ok(pass)
}
