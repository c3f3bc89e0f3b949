//! A choice of a turn that is taken.
ghost use Rattle.std.specs.Prelude.{◌≡◌, ◌<◌, ◌^◌, length, map, OnOk};
ghost use Rattle.crl_model.specs.declared.choice.Choice.TheVariants as choice;
ghost use Rattle.crl_world.specs.Seen.{world_seen};
ghost use Rattle.crl_run.specs.Playing.{SomeCanChoose, HasChosen, AreShort};

use crate::player::Player;
use crate::taking::{carry_message, collect_answer, handle_message, take_statement};
use crl_member::Member;
use crl_model::choice::Choice;
use crl_model::statement::Statement;
use crl_model::{NodeNo, OutOfMemory};
use crl_world::World;
use std::alloc::Global;

/// The node takes its next statement.
///
/// # Errors
///
/// `OutOfMemory`.
fn choose_statement<N: Member>(
    alloc: Global,
    blocks: &[Vec<Statement>],
    world: &mut World<N>,
    players: &mut [Player],
    i: NodeNo,
) -> Result<(), OutOfMemory>
    requires nodes { length blocks.now ≡ length players.old }
    requires short { AreShort (map (λ b. b.items) blocks.now) }
    requires few { world.old.events < 2 ^ 62 }
    requires can { SomeCanChoose (map (λ b. b.items) blocks.now) (world_seen N.state world.old) players.old (choice.Statement i) }
    ensures { let w = world_seen N.state world.old in
        let v = world_seen N.state world.new in
        OnOk result (HasChosen (map (λ b. b.items) blocks.now) w players.old (choice.Statement i) v players.new) }
{
    let statements = blocks[i as usize].as_slice();
    let statement = players[i as usize].statement(statements);
    take_statement(alloc, world, &mut players[i as usize], i, statement)
}

/// The choice is taken, which is one of the turn.
///
/// # Errors
///
/// `OutOfMemory`.
pub(crate) fn take_choice<N: Member>(
    alloc: Global,
    blocks: &[Vec<Statement>],
    world: &mut World<N>,
    players: &mut [Player],
    choice: Choice,
) -> Result<(), OutOfMemory>
    requires nodes { length blocks.now ≡ length players.old }
    requires short { AreShort (map (λ b. b.items) blocks.now) }
    requires few { world.old.events < 2 ^ 62 }
    requires can { SomeCanChoose (map (λ b. b.items) blocks.now) (world_seen N.state world.old) players.old choice }
    ensures { let w = world_seen N.state world.old in
        let v = world_seen N.state world.new in
        OnOk result (HasChosen (map (λ b. b.items) blocks.now) w players.old choice v players.new) }
{
    match choice {
        Choice::Statement(i) => choose_statement(alloc, blocks, world, players, i),
        Choice::Collect(i) => collect_answer(world, &mut players[i as usize], i),
        Choice::Handle(i, place) => handle_message(world, i, place),
        Choice::Carry(i, place) => carry_message(world, i, place),
    }
}
