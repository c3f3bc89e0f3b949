//! A turn of a run, and all of its turns.
ghost use Rattle.std.specs.Prelude.{◌≡◌, ◌<◌, ◌≤◌, ◌^◌, [], length, map, drop, not, IfOk, OnOk, MatchOption};
ghost use Rattle.crl_deeds.specs.Laws.{AreStatements};
ghost use Rattle.crl_order.specs.Words.{words_to_come};
ghost use Rattle.crl_protocol.specs.Chosen.{block_of};
ghost use Rattle.crl_protocol.specs.Home.{is_empty};
ghost use Rattle.crl_stuck.specs.Ends.{statements_in, most_turns};
ghost use Rattle.crl_world.specs.Choosing.{choices_by, left_in};
ghost use Rattle.crl_world.specs.Seen.{world_seen};
ghost use Rattle.crl_run.specs.Playing.{AreShort, player_of};
ghost use Rattle.crl_run.specs.Turning.{SayWhatIsLeft, IsNextOf, node_of, SomeTurn, TurnIsTaken, RunIsOver};
ghost use Rattle.crl_run.specs.Finishing.{IsAtSomeTurn};

use crate::choosing::take_choice;
use crate::player::Player;
use crl_member::Member;
use crl_model::choice::Choice;
use crl_model::statement::Statement;
use crl_model::{NodeNo, OutOfMemory};
use crl_order::Order;
use crl_world::World;
use std::alloc::Global;

/// Whether node `i` has a statement left.
fn has_left(blocks: &[Vec<Statement>], players: &[Player], i: usize) -> bool
    requires nodes { length blocks.now ≡ length players.now }
    requires node { i < length players.now }
    ensures { result ≡ not (is_empty (drop (player_of players.now i).place (block_of (map (λ b. b.items) blocks.now) i))) }
{
    !players[i].is_done(blocks[i].as_slice())
}

/// Which nodes have a statement left.
///
/// # Errors
///
/// `OutOfMemory`.
fn what_is_left(
    alloc: Global,
    blocks: &[Vec<Statement>],
    players: &[Player],
) -> Result<Vec<bool>, OutOfMemory>
    requires nodes { length blocks.now ≡ length players.now }
    ensures { IfOk result (λ left. SayWhatIsLeft (map (λ b. b.items) blocks.now) players.now left.items) }
{
    let mut left = Vec::with_capacity(alloc, players.len())?;
    for i in 0..players.len() {
        left.push(has_left(blocks, players, i))?;
    }
    Ok(left)
}

/// The choice that the next word of the order chooses, if there is one.
fn next_choice<N: Member>(world: &World<N>, left: &[bool], order: &mut Order) -> Option<Choice>
    requires { length left.now ≡ length world.now.nodes }
    ensures { let choices = choices_by (left_in left.now) (world_seen N.state world.now) in
        MatchOption result (choices ≡ []) (IsNextOf choices order.old order.new) }
{
    if let Order::First = order {
        return world.first_choice(left);
    }
    let counts = world.counts(left);
    if counts.all == 0 {
        return None;
    }
    let place = order.next(counts.all);
    Some(world.choice(left, &counts, place))
}

/// The node of a choice.
fn node_of(choice: Choice) -> NodeNo
    ensures { result ≡ node_of choice }
{
    match choice {
        Choice::Statement(i) | Choice::Collect(i) => i,
        Choice::Handle(i, _) | Choice::Carry(i, _) => i,
    }
}

/// One turn: the choice is taken at the place that the order's next word gives. Or there is no choice left. The list
/// `left` says which nodes have a statement left.
///
/// # Errors
///
/// `OutOfMemory`.
fn take_turn<N: Member>(
    alloc: Global,
    blocks: &[Vec<Statement>],
    world: &mut World<N>,
    players: &mut [Player],
    order: &mut Order,
    left: &mut Vec<bool>,
) -> Result<bool, OutOfMemory>
    requires nodes { length blocks.now ≡ length players.old }
    requires short { AreShort (map (λ b. b.items) blocks.now) }
    requires few { world.old.events < 2 ^ 62 }
    requires some { SomeTurn (map (λ b. b.items) blocks.now) (world_seen N.state world.old) players.old }
    requires left { SayWhatIsLeft (map (λ b. b.items) blocks.now) players.old left.old.items }
    ensures turn { let w = world_seen N.state world.old in
        let v = world_seen N.state world.new in
        IfOk result (λ more. TurnIsTaken (map (λ b. b.items) blocks.now) w players.old order.old more v players.new order.new) }
    ensures left { OnOk result (SayWhatIsLeft (map (λ b. b.items) blocks.now) players.new left.new.items) }
{
    let Some(choice) = next_choice(world, left.as_slice(), order) else {
        return Ok(false);
    };
    take_choice(alloc, blocks, world, players, choice)?;
    let i = node_of(choice) as usize;
    left[i] = has_left(blocks, players, i);
    Ok(true)
}

/// The largest number of turns, 2^60. A script of at most 2^40 statements has fewer.
const TURN_LIMIT: u64 = 0x1000_0000_0000_0000;

/// All turns that are left, until there is no choice.
///
/// # Errors
///
/// `OutOfMemory`.
pub(crate) fn take_turns<N: Member>(
    alloc: Global,
    blocks: &[Vec<Statement>],
    world: &mut World<N>,
    players: &mut [Player],
    order: &mut Order,
) -> Result<(), OutOfMemory>
    requires nodes { length blocks.now ≡ length players.old }
    requires short { AreShort (map (λ b. b.items) blocks.now) }
    requires statements { AreStatements (map (λ b. b.items) blocks.now) }
    requires limit { most_turns (length players.old) (statements_in (length players.old) (map (λ b. b.items) blocks.now)) ≤ 2 ^ 60 }
    requires begun { IsAtSomeTurn (map (λ b. b.items) blocks.now) (world_seen N.state world.old) players.old }
    ensures { let w = world_seen N.state world.old in
        let v = world_seen N.state world.new in
        OnOk result (RunIsOver (map (λ b. b.items) blocks.now) (words_to_come order.old) w players.old v players.new) }
{
    let mut left = what_is_left(alloc, blocks, players)?;
    for _ in 0..TURN_LIMIT {
        if !take_turn(alloc, blocks, world, players, order, &mut left)? {
            return Ok(());
        }
    }
    Ok(())
}
