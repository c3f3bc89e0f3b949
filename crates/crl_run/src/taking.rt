//! The choices of a turn at one node: its next statement, and the answer for which it waited.
ghost use Rattle.std.specs.Prelude.{◌≡◌, ◌+◌, ◌<◌, ◌≤◌, ◌^◌, true, false, length, OnOk};
ghost use Rattle.crl_model.specs.declared.event.Event.TheVariants as event;
ghost use Rattle.crl_protocol.specs.Places.{take_out};
ghost use Rattle.crl_protocol.specs.Verdict as verdict;
ghost use Rattle.crl_protocol.specs.World.{step, is_enabled};
ghost use Rattle.crl_member.specs.Members.{TakenIsSafe, TakenIsInTable};
ghost use Rattle.crl_world.specs.Seen.{world_seen, NodesAreSafe};
ghost use Rattle.crl_world.specs.Stepping.{reading_fits, writing_fits, end_of_reading, end_of_writing, MayEnd, GoesElsewhere};
ghost use Rattle.crl_run.specs.Acting.{IsShort};
ghost use Rattle.crl_run.specs.Actors.{asked_call, call_made};
ghost use Rattle.crl_run.specs.Making.{IsKeptFrom, CallMayCome, MayBeMade, IsJudged, IsMade, MayTake, HasTaken};

use crate::act::Act;
use crate::guards::{Reading, Writing};
use crate::player::Player;
use crl_member::Member;
use crl_model::call::{Call, Refusal};
use crl_model::statement::Statement;
use crl_model::{NodeNo, OutOfMemory};
use crl_world::{CallFault, EndFault, StepFault, World};
use std::alloc::Global;

/// The node takes the answer for which it waited, and its player keeps the guard of the answer.
///
/// # Errors
///
/// `OutOfMemory`.
pub(crate) fn collect_answer<N: Member>(
    world: &mut World<N>,
    player: &mut Player,
    i: NodeNo,
) -> Result<(), OutOfMemory>
    requires node { i < length world.old.nodes }
    requires safe { NodesAreSafe (world_seen N.state world.old) }
    requires few { world.old.events < 2 ^ 62 }
    requires enabled { is_enabled (event.Collect i) (world_seen N.state world.old) ≡ true }
    ensures { let w = world_seen N.state world.old in
        OnOk result (IsKeptFrom (event.Collect i) w (world_seen N.state world.new) player.old.place player.old.guards player.new) }
{
    player.reserve()?;
    match world.collect(i) {
        Ok(answer) => {
            player.keep(answer);
            Ok(())
        }
        Err(StepFault::Spent) => unreachable!(),
        Err(StepFault::OutOfMemory) => Err(OutOfMemory),
    }
}

/// The node handles the piece at this place of its inbox.
///
/// # Errors
///
/// `OutOfMemory`.
pub(crate) fn handle_message<N: Member>(
    world: &mut World<N>,
    i: NodeNo,
    place: usize,
) -> Result<(), OutOfMemory>
    requires node { i < length world.old.nodes }
    requires safe { NodesAreSafe (world_seen N.state world.old) }
    requires few { world.old.events < 2 ^ 62 }
    requires enabled { is_enabled (event.Handle i place) (world_seen N.state world.old) ≡ true }
    requires piece { let n = (world_seen N.state world.old).nodes i in TakenIsSafe n (take_out place n.inbox) }
    ensures { OnOk result (world_seen N.state world.new ≡ (step (event.Handle i place) (world_seen N.state world.old)).world) }
{
    match world.handle(i, place) {
        Ok(()) => Ok(()),
        Err(StepFault::Spent) => unreachable!(),
        Err(StepFault::OutOfMemory) => Err(OutOfMemory),
    }
}

/// The piece at this place of the node's outbox comes into the inbox of its addressee.
///
/// # Errors
///
/// `OutOfMemory`.
pub(crate) fn carry_message<N: Member>(
    world: &mut World<N>,
    i: NodeNo,
    place: usize,
) -> Result<(), OutOfMemory>
    requires node { i < length world.old.nodes }
    requires safe { NodesAreSafe (world_seen N.state world.old) }
    requires few { world.old.events < 2 ^ 62 }
    requires enabled { is_enabled (event.Carry i place) (world_seen N.state world.old) ≡ true }
    requires elsewhere { let w = world_seen N.state world.old in GoesElsewhere i w.count (take_out place (w.nodes i).outbox) }
    requires in_table { let w = world_seen N.state world.old in w.count ≤ 64 → TakenIsInTable (take_out place (w.nodes i).outbox) }
    ensures { OnOk result (world_seen N.state world.new ≡ (step (event.Carry i place) (world_seen N.state world.old)).world) }
{
    match world.carry(i, place) {
        Ok(()) => Ok(()),
        Err(StepFault::Spent) => unreachable!(),
        Err(StepFault::OutOfMemory) => Err(OutOfMemory),
    }
}

/// The node makes the call, on which this is its verdict, and its player keeps the guard of the answer, if it is answered
/// at once.
///
/// # Errors
///
/// `OutOfMemory`.
fn make_call<N: Member>(
    world: &mut World<N>,
    player: &mut Player,
    i: NodeNo,
    call: Call,
    refusal: Option<Refusal>,
) -> Result<(), OutOfMemory>
    requires node { i < length world.old.nodes }
    requires safe { NodesAreSafe (world_seen N.state world.old) }
    requires few { world.old.events < 2 ^ 62 }
    requires may { CallMayCome i (world_seen N.state world.old) call }
    requires judged { refusal ≡ verdict.verdict ((world_seen N.state world.old).nodes i) call }
    ensures { let w = world_seen N.state world.old in
        OnOk result (IsKeptFrom (event.Call i call) w (world_seen N.state world.new) player.old.place player.old.guards player.new) }
{
    player.reserve()?;
    match world.call_judged(i, call, refusal) {
        Ok(answer) => {
            player.keep(answer);
            Ok(())
        }
        Err(CallFault::Spent(_)) => unreachable!(),
        Err(CallFault::OutOfMemory(_)) => Err(OutOfMemory),
    }
}

/// The read section of the guard ends.
fn end_reading<N: Member>(world: &mut World<N>, guard: Reading)
    requires safe { NodesAreSafe (world_seen N.state world.old) }
    requires few { world.old.events < 2 ^ 62 }
    requires fits { reading_fits guard (world_seen N.state world.old) ≡ true }
    requires may { MayEnd guard (end_of_reading guard) (world_seen N.state world.old) }
    ensures { world_seen N.state world.new ≡ (step (event.Call guard.node (end_of_reading guard)) (world_seen N.state world.old)).world }
{
    match world.end_read(guard) {
        Ok(()) => {}
        Err(EndFault::Foreign(guard)) => {
            guard.discard();
            unreachable!()
        }
        Err(EndFault::Spent(guard)) => {
            guard.discard();
            unreachable!()
        }
    }
}

/// The write section of the guard ends.
fn end_writing<N: Member>(world: &mut World<N>, guard: Writing)
    requires safe { NodesAreSafe (world_seen N.state world.old) }
    requires few { world.old.events < 2 ^ 62 }
    requires fits { writing_fits guard (world_seen N.state world.old) ≡ true }
    requires may { MayEnd guard (end_of_writing guard) (world_seen N.state world.old) }
    ensures { world_seen N.state world.new ≡ (step (event.Call guard.node (end_of_writing guard)) (world_seen N.state world.old)).world }
{
    match world.end_write(guard) {
        Ok(()) => {}
        Err(EndFault::Foreign(guard)) => {
            guard.discard();
            unreachable!()
        }
        Err(EndFault::Spent(guard)) => {
            guard.discard();
            unreachable!()
        }
    }
}

/// What the node does for a statement, on whose call this is its verdict, is done: a call that it makes, or the end of a
/// section by its guard.
///
/// # Errors
///
/// `OutOfMemory`.
fn make_act<N: Member>(
    world: &mut World<N>,
    player: &mut Player,
    i: NodeNo,
    act: Act,
    refusal: Option<Refusal>,
) -> Result<(), OutOfMemory>
    requires node { i < length world.old.nodes }
    requires safe { NodesAreSafe (world_seen N.state world.old) }
    requires few { world.old.events < 2 ^ 62 }
    requires may { MayBeMade i (world_seen N.state world.old) act }
    requires judged { IsJudged refusal ((world_seen N.state world.old).nodes i) act }
    ensures { let w = world_seen N.state world.old in
        OnOk result (IsMade i (call_made act) w (world_seen N.state world.new) player.old.place player.old.guards player.new) }
{
    match act {
        Act::Call(call) => make_call(world, player, i, call, refusal),
        Act::EndRead(guard) => {
            end_reading(world, guard);
            Ok(())
        }
        Act::EndWrite(guard) => {
            end_writing(world, guard);
            Ok(())
        }
        Act::Inside => Ok(()),
    }
}

/// The node's verdict on the statement's call.
fn verdict_on<N: Member>(world: &World<N>, i: NodeNo, statement: &Statement) -> Option<Refusal>
    requires node { i < length world.now.nodes }
    requires short { IsShort statement.now }
    ensures { result ≡ verdict.verdict ((world_seen N.state world.now).nodes i) (asked_call statement.now) }
{
    match statement {
        Statement::Call(call) => world.verdict(i, call),
        Statement::Put {
            name,
            offset,
            bytes,
        } => {
            let call = Call::Put {
                name: *name,
                offset: *offset,
                len: bytes.len() as u32,
            };
            world.verdict(i, &call)
        }
        Statement::Add { name, offset, .. } => {
            let call = Call::Add {
                name: *name,
                offset: *offset,
            };
            world.verdict(i, &call)
        }
    }
}

/// The node takes its next statement.
///
/// # Errors
///
/// `OutOfMemory`.
pub(crate) fn take_statement<N: Member>(
    alloc: Global,
    world: &mut World<N>,
    player: &mut Player,
    i: NodeNo,
    statement: &Statement,
) -> Result<(), OutOfMemory>
    requires node { i < length world.old.nodes }
    requires safe { NodesAreSafe (world_seen N.state world.old) }
    requires few { world.old.events < 2 ^ 62 }
    requires place { player.old.place + 1 < 2 ^ 64 }
    requires short { IsShort statement.now }
    requires may { MayTake i statement.now (world_seen N.state world.old) player.old.guards }
    ensures { let w = world_seen N.state world.old in
        OnOk result (HasTaken i statement.now w (world_seen N.state world.new) player.old player.new) }
{
    let refusal = verdict_on(world, i, statement);
    let act = player.act(alloc, statement, refusal)?;
    make_act(world, player, i, act, refusal)
}
