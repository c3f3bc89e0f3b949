//! What a held node does besides its statements: it takes its answer, handles a piece, and sends one.
ghost use Rattle.std.specs.Prelude.{◌≡◌, ◌<◌, true, length, OnOk};
ghost use Rattle.crl_protocol.specs.World.{is_ready};
ghost use Rattle.crl_cluster.specs.Clusters.{view_of, shape_of, IsOf, IsHeld};
ghost use Rattle.crl_crew.specs.Working.{HeardNothing, StaysAt};

use crl_cluster::{Cluster, Held, Luggage, Pass, StepFault, TryFault};
use crl_member::Member;
use crl_model::OutOfMemory;
use crl_run::Player;

/// The held node takes the answer for which it waited, and its player keeps the guard of the answer. Nothing is done where
/// others append events meanwhile.
///
/// # Errors
///
/// `OutOfMemory`.
pub(crate) fn take_answer<N: Member, T: Luggage>(
    nodes: &Cluster<N, T>,
    pass: &mut Pass,
    held: &mut Held<N, T>,
    player: &mut Player,
) -> Result<(), OutOfMemory>
    requires here { IsOf nodes.now pass.old }
    requires held { IsHeld N.state (shape_of nodes.now) (view_of pass.old) held.old }
    requires ready { is_ready (N.state held.old.behind.node).activity ≡ true }
    ensures { OnOk result (StaysAt N.state nodes.now pass.old held.old player.old pass.new held.new player.new) }
{
    player.reserve()?;
    match nodes.collect(pass, held) {
        Ok(answer) => {
            player.keep(answer);
            Ok(())
        }
        Err(StepFault::OutOfMemory) => Err(OutOfMemory),
        Err(_) => Ok(()),
    }
}

/// The held node handles the first piece of its inbox. Nothing is done where others append events meanwhile.
///
/// # Errors
///
/// `OutOfMemory`.
pub(crate) fn handle_first<N: Member, T: Luggage>(
    nodes: &Cluster<N, T>,
    pass: &mut Pass,
    held: &mut Held<N, T>,
) -> Result<(), OutOfMemory>
    requires here { IsOf nodes.now pass.old }
    requires held { IsHeld N.state (shape_of nodes.now) (view_of pass.old) held.old }
    requires there { 0 < length (N.state held.old.behind.node).inbox }
    ensures { OnOk result (HeardNothing N.state nodes.now pass.old held.old pass.new held.new) }
{
    match nodes.handle(pass, held, 0) {
        Ok(()) => Ok(()),
        Err(StepFault::OutOfMemory) => Err(OutOfMemory),
        Err(_) => Ok(()),
    }
}

/// The first piece of the held node's outbox goes to its addressee. False: there is none, or the addressee's turn is out.
/// Nothing is done where others append events meanwhile.
///
/// # Errors
///
/// `OutOfMemory`.
pub(crate) fn send_first<N: Member, T: Luggage>(
    nodes: &Cluster<N, T>,
    pass: &mut Pass,
    held: &mut Held<N, T>,
) -> Result<bool, OutOfMemory>
    requires here { IsOf nodes.now pass.old }
    requires held { IsHeld N.state (shape_of nodes.now) (view_of pass.old) held.old }
    ensures { OnOk result (HeardNothing N.state nodes.now pass.old held.old pass.new held.new) }
{
    match nodes.carry_if(pass, held, 0) {
        Ok(()) => Ok(true),
        Err(TryFault::Step(StepFault::OutOfMemory)) => Err(OutOfMemory),
        Err(TryFault::Step(_)) => Ok(true),
        Err(_) => Ok(false),
    }
}
