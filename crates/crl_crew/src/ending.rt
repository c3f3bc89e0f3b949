//! The end of the work: the cluster is taken apart.
ghost use Rattle.std.specs.Prelude.{◌≡◌, map, IfOk};
ghost use Rattle.crl_world.specs.Seen.{world_seen};
ghost use Rattle.crl_cluster.specs.Clusters.{shape_of};
ghost use Rattle.crl_crew.specs.Working.{IsIdle};
ghost use Rattle.crl_crew.specs.Ending.{IsEnd};

use crate::place::{Place, Scripted};
use crl_cluster::{CloseWhy, Closed, Cluster, Luggage, NotClosed, Pass};
use crl_member::Member;
use crl_model::OutOfMemory;
use crl_run::Player;
use std::alloc::Global;
use std::sync::Wait;

/// Closes the cluster, however often a turn is out.
///
/// # Errors
///
/// `OutOfMemory`.
pub(crate) fn close_all<N: Member, T: Luggage, R: Wait>(
    rt: &R,
    alloc: Global,
    cluster: Cluster<N, T>,
    pass: Pass,
) -> Result<Closed<N, T>, OutOfMemory>
    requires { IsIdle cluster pass }
    ensures { IfOk result (λ closed. IsEnd T.stands (shape_of cluster) (world_seen N.state closed.world) closed.luggage.items) }
{
    let mut cluster = cluster;
    let mut pass = pass;
    for _ in rt.forever() {
        match cluster.close(alloc, pass) {
            Ok(closed) => return Ok(closed),
            Err(back) => {
                let NotClosed {
                    cluster: again,
                    pass: own,
                    why,
                } = back;
                if matches!(why, CloseWhy::OutOfMemory) {
                    return Err(OutOfMemory);
                }
                cluster = again;
                pass = own;
            }
        }
    }
    unreachable!()
}

/// The players, by number.
///
/// # Errors
///
/// `OutOfMemory`.
pub(crate) fn players_of<S: Scripted>(
    alloc: Global,
    luggage: Vec<Place<S>>,
) -> Result<Vec<Player>, OutOfMemory>
    ensures { IfOk result (λ players. players.items ≡ map (λ place. place.player) luggage.items) }
{
    let mut luggage = luggage;
    let mut players = Vec::with_capacity(alloc, luggage.len())?;
    while !luggage.is_empty() {
        players.push(luggage.remove(0).into_player())?;
    }
    Ok(players)
}
