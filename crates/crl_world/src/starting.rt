//! A new world.
ghost use Rattle.std.specs.Prelude.{◌≡◌, map, IfOk, MatchResult};
ghost use Rattle.crl_world.specs.Seen.{world_seen, world_of_nodes, first_nodes, IsKept};
ghost use Rattle.crl_world.specs.Starting.{AreSomeNodes, IsStarted, IsNotStarted};

use crate::faults::StartFault;
use crate::world::World;
use crl_member::Member;
use crl_model::{NODE_LIMIT, NodeNo, OutOfMemory};
use std::alloc::Global;

/// The nodes of a new world, by number.
fn new_members<N: Member>(
    alloc: Global,
    nodes: NodeNo,
    capacity: u16,
) -> Result<Vec<N>, OutOfMemory>
    requires { AreSomeNodes nodes }
    ensures { IfOk result (λ members. map N.state members.items ≡ first_nodes nodes capacity 0 nodes) }
{
    let mut members = Vec::with_capacity(alloc, nodes as usize)?;
    for me in 0..nodes {
        members.push(N::new(alloc, me, nodes, capacity)?)?;
    }
    Ok(members)
}

impl<N: Member> World<N> {
    /// So many nodes, each with room for so many names in its cache, to which nothing happened.
    ///
    /// # Errors
    ///
    /// `BadNodes` where there are to be 0 nodes, or more than 64; else `OutOfMemory`.
    pub fn new(alloc: Global, nodes: NodeNo, capacity: u16) -> Result<World<N>, StartFault>
        ensures { MatchResult result (λ w. IsStarted nodes capacity (world_seen N.state w)) (IsNotStarted nodes) }
    {
        if nodes == 0 || nodes > NODE_LIMIT {
            return Err(StartFault::BadNodes);
        }
        match new_members(alloc, nodes, capacity) {
            Ok(members) => Ok(World {
                nodes: members,
                events: 0,
                capacity,
            }),
            Err(_) => Err(StartFault::OutOfMemory),
        }
    }

    /// The world of these nodes, by number, after so many events.
    pub fn of_nodes(nodes: Vec<N>, events: u64, capacity: u16) -> World<N>
        requires { IsKept (world_of_nodes (map N.state nodes.items) events capacity) }
        ensures { world_seen N.state result ≡ world_of_nodes (map N.state nodes.items) events capacity }
    {
        World {
            nodes,
            events,
            capacity,
        }
    }
}
