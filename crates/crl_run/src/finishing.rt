//! The rest of a run.
ghost use Rattle.std.specs.Prelude.{◌≡◌, ◌≤◌, ◌^◌, ℕ, false, length, map, MatchResult, IfOk};
ghost use Rattle.crl_deeds.specs.Laws.{AreStatements};
ghost use Rattle.crl_order.specs.Words.{words_to_come};
ghost use Rattle.crl_stuck.specs.Ends.{statements_in};
ghost use Rattle.crl_world.specs.Seen.{world_seen};
ghost use Rattle.crl_run.specs.Playing.{AreShort};
ghost use Rattle.crl_run.specs.Reporting.{IsReportOf};
ghost use Rattle.crl_run.specs.Runs.{IsFaultOf, HasReport};
ghost use Rattle.crl_run.specs.Words.{words_then};
ghost use Rattle.crl_run.specs.Turning.{IsAt};
ghost use Rattle.crl_run.specs.Finishing.{IsAtTurn, IsAtSomeTurn, IsPrintedFrom, IsReportOfSome, IsFaultOfSome};

use crate::player::Player;
use crate::reporting::{is_stuck, report_of};
use crate::running::RunFault;
use crate::turning::take_turns;
use crl_member::Member;
use crl_model::OutOfMemory;
use crl_model::report::Report;
use crl_model::statement::Statement;
use crl_order::Order;
use crl_world::World;
use std::alloc::Global;

/// A report, and whether its run is stuck.
#[derive(Drop)]
pub(crate) struct Printed {
    pub stuck: bool,
    pub report: Report,
}

/// The rest of the run by these players, and the report of the whole.
///
/// # Errors
///
/// `OutOfMemory`.
fn play<N: Member>(
    alloc: Global,
    blocks: &[Vec<Statement>],
    world: World<N>,
    players: &mut [Player],
    order: &mut Order,
) -> Result<Printed, OutOfMemory>
    requires nodes { (length players.old ≤ 64) × (length blocks.now ≡ length players.old) }
    requires statements { AreStatements (map (λ b. b.items) blocks.now) }
    requires short { AreShort (map (λ b. b.items) blocks.now) }
    requires few { statements_in (length players.old) (map (λ b. b.items) blocks.now) ≤ 2 ^ 40 }
    requires begun { IsAtSomeTurn (map (λ b. b.items) blocks.now) (world_seen N.state world) players.old }
    ensures { IfOk result (IsPrintedFrom (map (λ b. b.items) blocks.now) (words_to_come order.old) (world_seen N.state world) players.old) }
{
    let mut world = world;
    take_turns(alloc, blocks, &mut world, players, order)?;
    let stuck = is_stuck(blocks, &world, players);
    let report = report_of(alloc, blocks, world, players, stuck)?;
    Ok(Printed { stuck, report })
}

/// The report, or the fault that has it.
fn printed_as(printed: Printed) -> Result<Report, RunFault>
    ensures { MatchResult result (λ report. (printed.stuck ≡ false) × (report ≡ printed.report)) (HasReport printed.stuck printed.report) }
{
    if printed.stuck {
        return Err(RunFault::Stuck(printed.report));
    }
    Ok(printed.report)
}

/// The rest of a run under this order: the report of the whole.
///
/// # Errors
///
/// `Stuck` with the report where the run ends with nodes that aren't finished; else `OutOfMemory`.
pub(crate) fn finish_by<N: Member>(
    alloc: Global,
    blocks: &[Vec<Statement>],
    world: World<N>,
    players: Vec<Player>,
    order: Order,
) -> Result<Report, RunFault>
    requires nodes { (length players.items ≤ 64) × (length blocks.now ≡ length players.items) }
    requires statements { AreStatements (map (λ b. b.items) blocks.now) }
    requires short { AreShort (map (λ b. b.items) blocks.now) }
    requires few { statements_in (length players.items) (map (λ b. b.items) blocks.now) ≤ 2 ^ 40 }
    requires begun { IsAtSomeTurn (map (λ b. b.items) blocks.now) (world_seen N.state world) players.items }
    ensures { let all = map (λ b. b.items) blocks.now in
        let n = length players.items in
        let rest = words_to_come order in
        (capacity : ℕ) (words : ℕ → ℕ) (k : ℕ) → IsAt capacity all words k (world_seen N.state world) players.items
        → MatchResult result (IsReportOf n capacity all (words_then k words rest) false) (IsFaultOf n capacity all (words_then k words rest)) }
{
    let mut players = players;
    let mut order = order;
    match play(alloc, blocks, world, players.as_mut_slice(), &mut order) {
        Ok(printed) => printed_as(printed),
        Err(_) => Err(RunFault::OutOfMemory),
    }
}

/// What is left of a run that others began, always by the first choice: the report of the whole, in which no node is
/// blocked. The world and the players, one a node, stand for what some words chose of the script so far. `blocks` has the
/// statements of each node.
///
/// # Errors
///
/// `Stuck` with the report where the run ends with nodes that aren't finished; else `OutOfMemory`.
pub fn finish<N: Member>(
    alloc: Global,
    blocks: &[Vec<Statement>],
    world: World<N>,
    players: Vec<Player>,
) -> Result<Report, RunFault>
    requires nodes { (length players.items ≤ 64) × (length blocks.now ≡ length players.items) }
    requires statements { AreStatements (map (λ b. b.items) blocks.now) }
    requires short { AreShort (map (λ b. b.items) blocks.now) }
    requires few { statements_in (length players.items) (map (λ b. b.items) blocks.now) ≤ 2 ^ 40 }
    requires begun { IsAtSomeTurn (map (λ b. b.items) blocks.now) (world_seen N.state world) players.items }
    ensures { let all = map (λ b. b.items) blocks.now in
        let n = length players.items in
        (capacity : ℕ) → IsAtTurn capacity all (world_seen N.state world) players.items
        → MatchResult result (IsReportOfSome n capacity all false) (IsFaultOfSome n capacity all) }
{
    finish_by(alloc, blocks, world, players, Order::First)
}
