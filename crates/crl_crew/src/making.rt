//! The calls of a held node. Each is tried until no other event comes between the load of the count and its own.
//!
//! A script's run is shorter than 2^62 events, where a history takes no more; what couldn't be appended is tried again
//! whatever the reason.
ghost use Rattle.std.specs.Prelude.{◌≡◌, true, None, IfOk};
ghost use Rattle.crl_model.specs.declared.call.Call.TheVariants as call;
ghost use Rattle.crl_model.specs.declared.event.Event.TheVariants as event;
ghost use Rattle.crl_protocol.specs.Node.{Done};
ghost use Rattle.crl_protocol.specs.World.{is_free};
ghost use Rattle.crl_member.specs.Fitting.{MayCall};
ghost use Rattle.crl_cluster.specs.Clusters.{view_of, shape_of, IsOf, IsHeld};
ghost use Rattle.crl_run.specs.Fits.{GuardFits};
ghost use Rattle.crl_run.specs.declared.act.Act.TheVariants as act;
ghost use Rattle.crl_crew.specs.Driving.{IsEventOf};

use crl_cluster::{Cluster, Held, Luggage, NotDone, Pass, StepFault};
use crl_member::Member;
use crl_model::OutOfMemory;
use crl_model::activity::Answer;
use crl_model::call::Call;
use crl_run::{Reading, Writing};
use std::sync::Wait;

/// The held node makes the call.
///
/// # Errors
///
/// `OutOfMemory`.
pub(crate) fn make_call<N: Member, T: Luggage, R: Wait>(
    rt: &R,
    nodes: &Cluster<N, T>,
    pass: &mut Pass,
    held: &mut Held<N, T>,
    call: Call,
) -> Result<Answer<Reading, Writing>, OutOfMemory>
    requires here { IsOf nodes.now pass.old }
    requires held { IsHeld N.state (shape_of nodes.now) (view_of pass.old) held.old }
    requires free { is_free (N.state held.old.behind.node).activity ≡ true }
    requires may { MayCall (N.state held.old.behind.node) call }
    ensures here { IsOf nodes.now pass.new }
    ensures told { let e = event.Call held.old.number call in
        IfOk result (λ answer. IsEventOf N.state (shape_of nodes.now) e (view_of pass.old) held.old answer (view_of pass.new) held.new) }
{
    let mut call = call;
    for _ in rt.forever() {
        match nodes.call(pass, held, call) {
            Ok(answer) => return Ok(answer),
            Err(NotDone { why, back }) => {
                if matches!(why, StepFault::OutOfMemory) {
                    return Err(OutOfMemory);
                }
                call = back;
            }
        }
    }
    unreachable!()
}

/// The held node ends the newest read section of the guard's region. It takes no memory.
pub(crate) fn end_reading<N: Member, T: Luggage, R: Wait>(
    rt: &R,
    nodes: &Cluster<N, T>,
    pass: &mut Pass,
    held: &mut Held<N, T>,
    guard: Reading,
)
    requires here { IsOf nodes.now pass.old }
    requires held { IsHeld N.state (shape_of nodes.now) (view_of pass.old) held.old }
    requires free { is_free (N.state held.old.behind.node).activity ≡ true }
    requires fits { GuardFits held.old.number (N.state held.old.behind.node) (act.EndRead guard) }
    ensures here { IsOf nodes.now pass.new }
    ensures told { let e = event.Call held.old.number (call.EndRead guard.name) in
        IsEventOf N.state (shape_of nodes.now) e (view_of pass.old) held.old Done (view_of pass.new) held.new }
{
    let mut guard = guard;
    for _ in rt.forever() {
        match nodes.end_read(pass, held, guard) {
            Ok(()) => return,
            Err(NotDone { why: _, back }) => guard = back,
        }
    }
    unreachable!()
}

/// The held node ends the write section of the guard's region, which has the guard's bytes from then on. It takes no memory.
pub(crate) fn end_writing<N: Member, T: Luggage, R: Wait>(
    rt: &R,
    nodes: &Cluster<N, T>,
    pass: &mut Pass,
    held: &mut Held<N, T>,
    guard: Writing,
)
    requires here { IsOf nodes.now pass.old }
    requires held { IsHeld N.state (shape_of nodes.now) (view_of pass.old) held.old }
    requires free { is_free (N.state held.old.behind.node).activity ≡ true }
    requires fits { GuardFits held.old.number (N.state held.old.behind.node) (act.EndWrite guard) }
    ensures here { IsOf nodes.now pass.new }
    ensures told { let e = event.Call held.old.number (call.EndWrite guard.name guard.bytes) in
        IsEventOf N.state (shape_of nodes.now) e (view_of pass.old) held.old Done (view_of pass.new) held.new }
{
    let mut guard = guard;
    for _ in rt.forever() {
        match nodes.end_write(pass, held, guard) {
            Ok(()) => return,
            Err(NotDone { why: _, back }) => guard = back,
        }
    }
    unreachable!()
}
