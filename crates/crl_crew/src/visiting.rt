//! A worker holds a node for as long as there is something to do there.
ghost use Rattle.std.specs.Prelude.{◌≡◌, ◌<◌, OnOk};
ghost use Rattle.crl_protocol.specs.Chosen.{block_of};
ghost use Rattle.crl_cluster.specs.Clusters.{node_count};
ghost use Rattle.crl_crew.specs.Standing.{AreTaken};
ghost use Rattle.crl_crew.specs.Working.{IsIdle, WorksAt};

use crate::acting::take_statement;
use crate::gate::Gate;
use crate::messages::{handle_first, send_first, take_answer};
use crate::place::{Place, Scripted};
use crl_cluster::{Cluster, Held, Luggage, Pass};
use crl_member::Member;
use crl_model::statement::Statement;
use crl_model::{NodeNo, OutOfMemory};
use crl_run::Player;
use std::alloc::Global;
use std::sync::Wait;

/// What a worker found at a node.
#[derive(Debug, Drop, Clone, Copy, PartialEq)]
pub(crate) enum Found {
    /// Nothing to do.
    Nothing,
    /// The node's turn is out, or that of a node to which it has to send.
    Busy,
    /// Something to do, which was done.
    Work,
}

/// The held node does one thing, if it can: it takes its answer, handles a piece, sends one, or takes its next statement
/// behind the gate.
///
/// # Errors
///
/// `OutOfMemory`.
fn do_next<N: Member, T: Luggage, G: Gate, R: Wait>(
    rt: &R,
    alloc: Global,
    nodes: &Cluster<N, T>,
    pass: &mut Pass,
    held: &mut Held<N, T>,
    player: &mut Player,
    statements: &[Statement],
    gate: &G,
) -> Result<bool, OutOfMemory>
    requires works { WorksAt N.state nodes.now held.old.number statements.now pass.old held.old player.old }
    requires taken { AreTaken statements.now }
    ensures { OnOk result (WorksAt N.state nodes.now held.old.number statements.now pass.new held.new player.new) }
{
    if held.node().is_ready() {
        take_answer(nodes, pass, held, player)?;
        return Ok(true);
    }
    if held.node().inbox_len() > 0 {
        handle_first(nodes, pass, held)?;
        return Ok(true);
    }
    if send_first(nodes, pass, held)? {
        return Ok(true);
    }
    if held.node().is_free() && !player.is_done(statements) {
        gate.pass(rt, held.number(), player.place());
        take_statement(rt, alloc, nodes, pass, held, player, statements)?;
        return Ok(true);
    }
    Ok(false)
}

/// The held node does all that it can by itself. Whether it did anything.
///
/// # Errors
///
/// `OutOfMemory`.
fn do_all<N: Member, T: Luggage, G: Gate, R: Wait>(
    rt: &R,
    alloc: Global,
    nodes: &Cluster<N, T>,
    pass: &mut Pass,
    held: &mut Held<N, T>,
    player: &mut Player,
    statements: &[Statement],
    gate: &G,
) -> Result<bool, OutOfMemory>
    requires works { WorksAt N.state nodes.now held.old.number statements.now pass.old held.old player.old }
    requires taken { AreTaken statements.now }
    ensures { OnOk result (WorksAt N.state nodes.now held.old.number statements.now pass.new held.new player.new) }
{
    let mut worked = false;
    for _ in rt.forever() {
        if !do_next(rt, alloc, nodes, pass, held, player, statements, gate)? {
            return Ok(worked);
        }
        worked = true;
    }
    unreachable!()
}

/// What was found at a node where all was done that it can do by itself.
fn found_at<N: Member>(node: &N, worked: bool) -> Found {
    if worked {
        Found::Work
    } else if node.outbox_len() > 0 {
        Found::Busy
    } else {
        Found::Nothing
    }
}

/// A held node does all that it can by itself, and is released.
///
/// # Errors
///
/// `OutOfMemory`; the turn of the node stays out.
fn work_held<N: Member, S: Scripted, G: Gate, R: Wait>(
    rt: &R,
    alloc: Global,
    nodes: &Cluster<N, Place<S>>,
    pass: &mut Pass,
    held: Held<N, Place<S>>,
    statements: &[Statement],
    gate: &G,
) -> Result<Found, OutOfMemory>
    requires works { WorksAt N.state nodes.now held.number statements.now pass.old held held.behind.luggage.player }
    requires statements { statements.now ≡ block_of S.blocks held.number }
    requires taken { AreTaken statements.now }
    ensures { OnOk result (IsIdle nodes.now pass.new) }
{
    let mut held = held;
    let mut player = held
        .replace_luggage(Place::new(Player::new(alloc)))
        .into_player();
    let worked = do_all(
        rt,
        alloc,
        nodes,
        pass,
        &mut held,
        &mut player,
        statements,
        gate,
    )?;
    let found = found_at(held.node(), worked);
    held.replace_luggage(Place::new(player));
    nodes.release(pass, held);
    Ok(found)
}

/// The node is held, if its turn is in, and does all that it can by itself.
///
/// # Errors
///
/// `OutOfMemory`; the turn of the node stays out.
pub(crate) fn visit<N: Member, S: Scripted, G: Gate, R: Wait>(
    rt: &R,
    alloc: Global,
    nodes: &Cluster<N, Place<S>>,
    pass: &mut Pass,
    node: NodeNo,
    statements: &[Statement],
    gate: &G,
) -> Result<Found, OutOfMemory>
    requires idle { IsIdle nodes.now pass.old }
    requires node { node < node_count nodes.now }
    requires statements { statements.now ≡ block_of S.blocks node }
    requires taken { AreTaken statements.now }
    ensures { OnOk result (IsIdle nodes.now pass.new) }
{
    match nodes.hold(pass, node) {
        Ok(held) => work_held(rt, alloc, nodes, pass, held, statements, gate),
        Err(_) => Ok(Found::Busy),
    }
}
