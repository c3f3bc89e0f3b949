//! The end of a cluster: its nodes are a world again.
ghost use Rattle.std.specs.Prelude.{◌≡◌, ◌≤◌, ◌<◌, ◌+◌, [], map, IfOk, MatchResult, vec_len, vec_capacity};
ghost use Rattle.crl_turns.specs.Closing.{HoldsNone};
ghost use Rattle.crl_world.specs.Seen.{world_seen, world_of_nodes, IsKept};
ghost use Rattle.crl_cluster.specs.declared.behind.Behind.{Behind};
ghost use Rattle.crl_cluster.specs.Clusters.{view_of, shape_of, IsOf};
ghost use Rattle.crl_cluster.specs.Closing.{IsClosed, IsNotClosed};

use crate::behind::Behind;
use crate::cluster::{Cluster, Pass};
use crate::luggage::Luggage;
use crl_member::Member;
use crl_model::OutOfMemory;
use crl_turns::CloseWhy;
use crl_world::World;
use std::alloc::Global;

/// The nodes as a world, and the luggage of each, by number.
pub struct Closed<N: Member, T> {
    pub world: World<N>,
    pub luggage: Vec<T>,
}

/// The cluster and the pass come back.
pub struct NotClosed<N: Member, T: Luggage> {
    pub cluster: Cluster<N, T>,
    pub pass: Pass,
    pub why: CloseWhy,
}

/// What closing takes.
#[derive(Drop)]
struct Room<N, T> {
    nodes: Vec<N>,
    luggage: Vec<T>,
    passes: Vec<crl_turns::Pass>,
}

fn room_for<N: Drop, T: Drop>(alloc: Global, count: usize) -> Result<Room<N, T>, OutOfMemory>
    ensures nodes { IfOk result (λ room. (room.nodes.items ≡ []) × (count ≤ vec_capacity room.nodes)) }
    ensures luggage { IfOk result (λ room. (room.luggage.items ≡ []) × (count ≤ vec_capacity room.luggage)) }
    ensures passes { IfOk result (λ room. (room.passes.items ≡ []) × (1 ≤ vec_capacity room.passes)) }
{
    let nodes = Vec::with_capacity(alloc, count)?;
    let luggage = Vec::with_capacity(alloc, count)?;
    let passes = Vec::with_capacity(alloc, 1)?;
    Ok(Room {
        nodes,
        luggage,
        passes,
    })
}

/// The nodes and the luggage, each in order.
fn taken_apart<N, T>(
    mut values: Vec<Behind<N, T>>,
    mut nodes: Vec<N>,
    mut luggage: Vec<T>,
) -> (Vec<N>, Vec<T>)
    requires nodes { (nodes.items ≡ []) × (vec_len values ≤ vec_capacity nodes) }
    requires luggage { (luggage.items ≡ []) × (vec_len values ≤ vec_capacity luggage) }
    ensures nodes { result.0.items ≡ map (λ (b : Behind N T). b.node) values.items }
    ensures luggage { result.1.items ≡ map (λ (b : Behind N T). b.luggage) values.items }
{
    while !values.is_empty() {
        let Behind {
            node,
            luggage: own,
            shape: _,
        } = values.remove(0);
        nodes.push_reserved(node);
        luggage.push_reserved(own);
    }
    values.destroy_empty();
    (nodes, luggage)
}

/// The same, the nodes as a world after so many events.
fn closed_of<N: Member, T>(
    values: Vec<Behind<N, T>>,
    nodes: Vec<N>,
    luggage: Vec<T>,
    events: u64,
    capacity: u16,
) -> Closed<N, T>
    requires nodes { (nodes.items ≡ []) × (vec_len values ≤ vec_capacity nodes) }
    requires luggage { (luggage.items ≡ []) × (vec_len values ≤ vec_capacity luggage) }
    requires kept { IsKept (world_of_nodes (map N.state (map (λ (b : Behind N T). b.node) values.items)) events capacity) }
    ensures world { world_seen N.state result.world ≡ world_of_nodes (map N.state (map (λ (b : Behind N T). b.node) values.items)) events capacity }
    ensures luggage { result.luggage.items ≡ map (λ (b : Behind N T). b.luggage) values.items }
{
    let (nodes, luggage) = taken_apart(values, nodes, luggage);
    Closed {
        world: World::of_nodes(nodes, events, capacity),
        luggage,
    }
}

impl<N: Member, T: Luggage> Cluster<N, T> {
    /// Takes the cluster apart by a pass that holds no node, which tries each turn at most once. Other passes are joined to
    /// it before.
    ///
    /// # Errors
    ///
    /// `OutOfMemory`, before anything is tried. `Busy`: the exchange of this node's turn found it out, and each turn that
    /// was got has gone back. All comes back.
    pub fn close(self, alloc: Global, pass: Pass) -> Result<Closed<N, T>, NotClosed<N, T>>
        requires here { IsOf self pass }
        requires idle { HoldsNone (view_of pass) }
        ensures { MatchResult result
            (λ closed. IsClosed T.stands (shape_of self) (view_of pass) (world_seen N.state closed.world) closed.luggage.items)
            (λ back. (back.cluster.turns ≡ self.turns) × IsOf self back.pass × IsNotClosed (shape_of self) (view_of pass) back.why (view_of back.pass)) }
    {
        let Ok(room) = room_for(alloc, pass.shape.parts as usize) else {
            return Err(NotClosed {
                cluster: self,
                pass,
                why: CloseWhy::OutOfMemory,
            });
        };
        let Room {
            nodes,
            luggage,
            mut passes,
        } = room;
        let Cluster { turns } = self;
        let Pass {
            turns: first,
            shape,
        } = pass;
        passes.push_reserved(first);
        match turns.close(alloc, passes) {
            Ok((values, events)) => Ok(closed_of(
                values,
                nodes,
                luggage,
                events,
                shape.extra as u16,
            )),
            Err(refused) => {
                let crl_turns::NotClosed {
                    turns,
                    mut passes,
                    why,
                } = refused;
                let first = passes.remove(0);
                Err(NotClosed {
                    cluster: Cluster { turns },
                    pass: Pass {
                        turns: first,
                        shape,
                    },
                    why,
                })
            }
        }
    }
}
