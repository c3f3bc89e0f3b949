//! A new cluster.
ghost use Rattle.std.specs.Prelude.{◌≡◌, IfOk, MatchResult};
ghost use Rattle.crl_world.specs.Starting.{AreSomeNodes, IsNotStarted};
ghost use Rattle.crl_cluster.specs.Starting.{AreNew, IsStarted};

use crate::behind::Behind;
use crate::cluster::{Cluster, Pass};
use crate::luggage::Luggage;
use crl_member::Member;
use crl_model::{NODE_LIMIT, NodeNo, OutOfMemory};
use crl_turns::Turns;
use crl_turns::turned::Shape;
use crl_world::StartFault;
use std::alloc::Global;

/// The nodes of a new cluster, by number, each with its luggage.
fn new_nodes<N: Member, T: Luggage>(
    alloc: Global,
    nodes: NodeNo,
    capacity: u16,
) -> Result<Vec<Behind<N, T>>, OutOfMemory>
    requires { AreSomeNodes nodes }
    ensures { IfOk result (λ values. AreNew N.state T.stands nodes capacity nodes values.items) }
{
    let shape = Shape {
        parts: nodes as u64,
        extra: capacity as u64,
    };
    let mut values = Vec::with_capacity(alloc, nodes as usize)?;
    for me in 0..nodes {
        let node = N::new(alloc, me, nodes, capacity)?;
        let luggage = T::start(alloc, me)?;
        values.push(Behind {
            node,
            luggage,
            shape,
        })?;
    }
    Ok(values)
}

impl<N: Member, T: Luggage> Cluster<N, T> {
    /// So many nodes, each with room for so many names in its cache, to which nothing happened; and the first pass.
    ///
    /// # Errors
    ///
    /// `BadNodes` where there are to be 0 nodes, or more than 64; else `OutOfMemory`.
    pub fn start(
        alloc: Global,
        nodes: NodeNo,
        capacity: u16,
    ) -> Result<(Cluster<N, T>, Pass), StartFault>
        ensures { MatchResult result (λ made. IsStarted nodes capacity made.0 made.1) (IsNotStarted nodes) }
    {
        if nodes == 0 || nodes > NODE_LIMIT {
            return Err(StartFault::BadNodes);
        }
        let Ok(values) = new_nodes(alloc, nodes, capacity) else {
            return Err(StartFault::OutOfMemory);
        };
        match Turns::new(alloc, values) {
            Ok((turns, pass)) => Ok((
                Cluster { turns },
                Pass {
                    turns: pass,
                    shape: Shape {
                        parts: nodes as u64,
                        extra: capacity as u64,
                    },
                },
            )),
            Err(_) => Err(StartFault::OutOfMemory),
        }
    }
}
