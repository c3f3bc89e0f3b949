//! A held node takes its next statement.
ghost use Rattle.std.specs.Prelude.{◌≡◌, ◌<◌, true, Some, length, OnOk};
ghost use Rattle.crl_model.specs.declared.statement.Statement.TheVariants as statement;
ghost use Rattle.crl_protocol.specs.Verdict as verdict;
ghost use Rattle.crl_protocol.specs.World.{is_free};
ghost use Rattle.crl_member.specs.Fitting.{MayCall};
ghost use Rattle.crl_cluster.specs.Clusters.{view_of, shape_of, IsOf, IsHeld};
ghost use Rattle.crl_run.specs.Acting.{IsShort};
ghost use Rattle.crl_run.specs.Actors.{asked_call, call_made};
ghost use Rattle.crl_crew.specs.Standing.{AreTaken};
ghost use Rattle.crl_crew.specs.Driving.{IsDoneFor, MayDo};
ghost use Rattle.crl_crew.specs.Working.{WorksAt};

use crate::making::{end_reading, end_writing, make_call};
use crl_cluster::theorems::fronts_are_histories;
use crl_cluster::{Cluster, Held, Luggage, Pass};
use crl_member::Member;
use crl_model::OutOfMemory;
use crl_model::call::{Call, Refusal};
use crl_model::statement::Statement;
use crl_run::{Act, Player};
use std::alloc::Global;
use std::sync::Wait;

/// The held node makes the call, and its player keeps the guard of the answer, if it is answered at once.
///
/// # Errors
///
/// `OutOfMemory`.
fn call_and_keep<N: Member, T: Luggage, R: Wait>(
    rt: &R,
    nodes: &Cluster<N, T>,
    pass: &mut Pass,
    held: &mut Held<N, T>,
    player: &mut Player,
    call: Call,
) -> Result<(), OutOfMemory>
    requires here { IsOf nodes.now pass.old }
    requires held { IsHeld N.state (shape_of nodes.now) (view_of pass.old) held.old }
    requires free { is_free (N.state held.old.behind.node).activity ≡ true }
    requires may { MayCall (N.state held.old.behind.node) call }
    ensures here { OnOk result (IsOf nodes.now pass.new) }
    ensures place { OnOk result (player.new.place ≡ player.old.place) }
    ensures told { let old = view_of pass.old in
        let new = view_of pass.new in
        OnOk result (IsDoneFor N.state (shape_of nodes.now) (Some call) old held.old player.old.guards new held.new player.new.guards) }
{
    player.reserve()?;
    let answer = make_call(rt, nodes, pass, held, call)?;
    player.keep(answer);
    Ok(())
}

/// What the node does for a statement is done: a call that it makes, or the end of a section by its guard.
///
/// # Errors
///
/// `OutOfMemory`.
fn make_act<N: Member, T: Luggage, R: Wait>(
    rt: &R,
    nodes: &Cluster<N, T>,
    pass: &mut Pass,
    held: &mut Held<N, T>,
    player: &mut Player,
    act: Act,
) -> Result<(), OutOfMemory>
    requires here { IsOf nodes.now pass.old }
    requires held { IsHeld N.state (shape_of nodes.now) (view_of pass.old) held.old }
    requires free { is_free (N.state held.old.behind.node).activity ≡ true }
    requires may { MayDo held.old.number (N.state held.old.behind.node) act }
    ensures here { OnOk result (IsOf nodes.now pass.new) }
    ensures place { OnOk result (player.new.place ≡ player.old.place) }
    ensures told { let old = view_of pass.old in
        let new = view_of pass.new in
        OnOk result (IsDoneFor N.state (shape_of nodes.now) (call_made act) old held.old player.old.guards new held.new player.new.guards) }
{
    match act {
        Act::Call(call) => call_and_keep(rt, nodes, pass, held, player, call),
        Act::EndRead(guard) => {
            end_reading(rt, nodes, pass, held, guard);
            Ok(())
        }
        Act::EndWrite(guard) => {
            end_writing(rt, nodes, pass, held, guard);
            Ok(())
        }
        Act::Inside => Ok(()),
    }
}

/// The node's verdict on the statement's call.
fn verdict_on<N: Member>(node: &N, statement: &Statement) -> Option<Refusal>
    requires { IsShort statement.now }
    ensures { result ≡ verdict.verdict (N.state node.now) (asked_call statement.now) }
{
    match statement {
        Statement::Call(call) => node.verdict(call),
        Statement::Put {
            name,
            offset,
            bytes,
        } => {
            let call = Call::Put {
                name: *name,
                offset: *offset,
                len: bytes.len() as u32,
            };
            node.verdict(&call)
        }
        Statement::Add { name, offset, .. } => {
            let call = Call::Add {
                name: *name,
                offset: *offset,
            };
            node.verdict(&call)
        }
    }
}

/// The held node, which is free, takes its next statement.
///
/// # Errors
///
/// `OutOfMemory`.
pub(crate) fn take_statement<N: Member, T: Luggage, R: Wait>(
    rt: &R,
    alloc: Global,
    nodes: &Cluster<N, T>,
    pass: &mut Pass,
    held: &mut Held<N, T>,
    player: &mut Player,
    statements: &[Statement],
) -> Result<(), OutOfMemory>
    requires works { WorksAt N.state nodes.now held.old.number statements.now pass.old held.old player.old }
    requires taken { AreTaken statements.now }
    requires free { is_free (N.state held.old.behind.node).activity ≡ true }
    requires left { player.old.place < length statements.now }
    ensures { OnOk result (WorksAt N.state nodes.now held.old.number statements.now pass.new held.new player.new) }
{
    fronts_are_histories();
    let statement = player.statement(statements);
    let refusal = verdict_on(held.node(), statement);
    let act = player.act(alloc, statement, refusal)?;
    make_act(rt, nodes, pass, held, player, act)
}
