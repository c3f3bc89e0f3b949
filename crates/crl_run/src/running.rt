//! The run of a script under an order.
ghost use Rattle.std.specs.Prelude.{◌≡◌, ◌<◌, ◌≤◌, ◌^◌, false, length, map, IfOk, MatchResult};
ghost use Rattle.crl_deeds.specs.Laws.{AreStatements};
ghost use Rattle.crl_order.specs.Words.{words_to_come};
ghost use Rattle.crl_stuck.specs.Ends.{statements_in};
ghost use Rattle.crl_world.specs.Seen.{world_seen};
ghost use Rattle.crl_protocol.specs.World.{new_world};
ghost use Rattle.crl_run.specs.Playing.{AreShort};
ghost use Rattle.crl_run.specs.Reporting.{IsReportOf};
ghost use Rattle.crl_run.specs.Runs.{AreNewPlayers, IsFaultOf};

use crate::finishing::finish_by;
use crate::player::Player;
use crl_member::Member;
use crl_model::report::Report;
use crl_model::statement::Statement;
use crl_model::{NodeNo, OutOfMemory};
use crl_order::Order;
use crl_world::{StartFault, World};
use std::alloc::Global;

/// Why a run has no report of regions.
#[derive(Debug, Drop)]
pub enum RunFault {
    /// The run is stuck: some nodes wait for each other. The report says what blocks each node that isn't finished.
    Stuck(Report),
    OutOfMemory,
}

/// The players of nodes that did nothing yet.
///
/// # Errors
///
/// `OutOfMemory`.
fn new_players(alloc: Global, nodes: NodeNo) -> Result<Vec<Player>, OutOfMemory>
    ensures { IfOk result (λ players. AreNewPlayers nodes players.items) }
{
    let mut players = Vec::with_capacity(alloc, nodes as usize)?;
    for _ in 0..nodes {
        players.push(Player::new(alloc))?;
    }
    Ok(players)
}

/// A new world.
///
/// # Errors
///
/// `OutOfMemory`.
fn first_world<N: Member>(
    alloc: Global,
    nodes: NodeNo,
    capacity: u16,
) -> Result<World<N>, OutOfMemory>
    requires { (0 < nodes) × (nodes ≤ 64) }
    ensures { IfOk result (λ w. world_seen N.state w ≡ new_world nodes capacity) }
{
    match World::new(alloc, nodes, capacity) {
        Ok(world) => Ok(world),
        Err(StartFault::BadNodes) => unreachable!(),
        Err(StartFault::OutOfMemory) => Err(OutOfMemory),
    }
}

/// The run that the script and the order choose, to its end: its report, in which no node is blocked. `blocks` has the
/// statements of each node, and each cache has room for `capacity` names.
///
/// # Errors
///
/// `Stuck` with the report where the run ends with nodes that aren't finished; else `OutOfMemory`.
pub fn run<N: Member>(
    alloc: Global,
    blocks: &[Vec<Statement>],
    nodes: NodeNo,
    capacity: u16,
    order: Order,
) -> Result<Report, RunFault>
    requires nodes { (0 < nodes) × (nodes ≤ 64) × (length blocks.now ≡ nodes) }
    requires statements { AreStatements (map (λ b. b.items) blocks.now) }
    requires short { AreShort (map (λ b. b.items) blocks.now) }
    requires few { statements_in nodes (map (λ b. b.items) blocks.now) ≤ 2 ^ 40 }
    ensures { let all = map (λ b. b.items) blocks.now in
        MatchResult result (IsReportOf nodes capacity all (words_to_come order) false) (IsFaultOf nodes capacity all (words_to_come order)) }
{
    let Ok(world) = first_world::<N>(alloc, nodes, capacity) else {
        return Err(RunFault::OutOfMemory);
    };
    let Ok(players) = new_players(alloc, nodes) else {
        return Err(RunFault::OutOfMemory);
    };
    finish_by(alloc, blocks, world, players, order)
}
