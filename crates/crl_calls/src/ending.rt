//! The end of a section by its guard: it is tried until the node does it.
ghost use Rattle.std.specs.Prelude.{◌≡◌, ◌<◌, ℕ, List, true, MatchResult};
ghost use Rattle.crl_model.specs.declared.call.Call.TheVariants as call;
ghost use Rattle.crl_model.specs.declared.event.Event.TheVariants as event;
ghost use Rattle.crl_protocol.specs.Node.{Done};
ghost use Rattle.crl_protocol.specs.Verdict.{verdict};
ghost use Rattle.crl_protocol.specs.World.{is_free};
ghost use Rattle.crl_cluster.specs.Clusters.{view_of, shape_of, node_count, IsOf, IsHeld, IsSameHeld};
ghost use Rattle.crl_cluster.specs.Acting.{IsDone, IsUndone};
ghost use Rattle.crl_calls.specs.Callers.{IsCallerOf, TellsEnd, is_allowed};
ghost use Rattle.crl_calls.specs.Tries.{ended_of, is_full_end, EndsHeld, DoesEnd, IsEnded, IsNeverEnded};

use crate::caller::Caller;
use crate::faults::{EndFault, EndWhy};
use crate::moving::{Full, move_all};
use crl_cluster::{Cluster, Held, NotDone, Pass, StepFault};
use crl_guard::{Reading, Writing};
use crl_member::Member;
use crl_model::NodeNo;
use crl_model::call::Call;
use crl_model::name::Name;
use std::sync::Wait;

/// A guard, by which a section is ended.
pub(crate) trait Ending: Sized {
    ghost use Rattle.std.specs.Prelude.{Bool};
    ghost use Rattle.crl_model.specs.declared.call.Call.{Call};
    ghost use Rattle.crl_protocol.specs.Node.{Node};

    // The call that ends the section.
    ghost call: { Self → Call };

    // The node has such a section open, which may end.
    ghost may_end: { Node → Self → Bool };

    /// The node has such a section open, which may end.
    fn may_end<N: Member>(&self, node: &N) -> bool
        ensures { result ≡ may_end (N.state node.now) self.now };

    /// The held node ends the section.
    fn end<N: Member>(
        self,
        cluster: &Cluster<N, ()>,
        pass: &mut Pass,
        held: &mut Held<N, ()>,
    ) -> Result<(), NotDone<Self>>
        requires here { IsOf cluster.now pass.old }
        requires held { IsHeld N.state (shape_of cluster.now) (view_of pass.old) held.old }
        requires free { is_free (N.state held.old.behind.node).activity ≡ true }
        requires may { may_end (N.state held.old.behind.node) self ≡ true }
        ensures here { IsOf cluster.now pass.new }
        ensures held { IsHeld N.state (shape_of cluster.now) (view_of pass.new) held.new × IsSameHeld held.old held.new }
        ensures told { let s = shape_of cluster.now in
            let old = view_of pass.old in
            let new = view_of pass.new in
            MatchResult result (λ _. IsDone s (event.Call held.old.number (call self)) old Done new)
            (λ fault. (fault.back ≡ self) × IsUndone s old fault.why new) };
}

impl Ending for Reading {
    ghost use Rattle.crl_model.specs.declared.call.Call.TheVariants as call;
    ghost use Rattle.crl_calls.specs.Callers as callers;

    ghost call = { λ guard. call.EndRead guard.name };

    ghost may_end = { λ n guard. callers.may_end_read n guard };

    fn may_end<N: Member>(&self, node: &N) -> bool {
        node.fits_reading(self) && node.verdict(&Call::EndRead { name: self.name() }).is_none()
    }

    fn end<N: Member>(
        self,
        cluster: &Cluster<N, ()>,
        pass: &mut Pass,
        held: &mut Held<N, ()>,
    ) -> Result<(), NotDone<Reading>> {
        cluster.end_read(pass, held, self)
    }
}

/// The node refuses a change of no bytes where it refuses the end of the write section.
fn may_close<N: Member>(node: &N, name: Name) -> bool
    ensures { (after : List ℕ) → result ≡ is_allowed (verdict (N.state node.now) (call.EndWrite name after)) }
{
    let none = Call::Put {
        name,
        offset: 0,
        len: 0,
    };
    node.verdict(&none).is_none()
}

impl Ending for Writing {
    ghost use Rattle.crl_model.specs.declared.call.Call.TheVariants as call;
    ghost use Rattle.crl_calls.specs.Callers as callers;

    ghost call = { λ guard. call.EndWrite guard.name guard.bytes };

    ghost may_end = { λ n guard. callers.may_end_write n guard };

    fn may_end<N: Member>(&self, node: &N) -> bool {
        node.fits_writing(self) && may_close(node, self.name())
    }

    fn end<N: Member>(
        self,
        cluster: &Cluster<N, ()>,
        pass: &mut Pass,
        held: &mut Held<N, ()>,
    ) -> Result<(), NotDone<Writing>> {
        cluster.end_write(pass, held, self)
    }
}

/// How a try to end a section ended.
enum Ended<G> {
    Done,
    /// It can be tried again.
    Again(G),
    /// The node has no section open that the guard ends.
    Foreign(G),
    /// The history has 2^62 events.
    Full(G),
}

/// How the try ended that was not done.
fn not_ended<G>(why: StepFault, back: G) -> Ended<G>
    ensures { result ≡ ended_of why back }
{
    match why {
        StepFault::OutOfMemory | StepFault::Moved { saw: _, found: _ } => Ended::Again(back),
        StepFault::Spent => Ended::Full(back),
    }
}

/// The held node ends the section, if it can now.
fn end_held<N: Member, G: Ending>(
    cluster: &Cluster<N, ()>,
    pass: &mut Pass,
    held: &mut Held<N, ()>,
    guard: G,
) -> Ended<G>
    requires here { IsOf cluster.now pass.old }
    requires held { IsHeld N.state (shape_of cluster.now) (view_of pass.old) held.old }
    ensures here { IsOf cluster.now pass.new }
    ensures held { IsHeld N.state (shape_of cluster.now) (view_of pass.new) held.new × IsSameHeld held.old held.new }
    ensures told { let s = shape_of cluster.now in
        let i = held.old.number in
        let done = EndsHeld s i (G.call guard) (λ n. G.may_end n guard) (view_of pass.old) (view_of pass.new) in
        IsEnded done s i (λ n. G.may_end n guard) guard (view_of pass.old) result (view_of pass.new) }
{
    if !guard.may_end(held.node()) {
        return Ended::Foreign(guard);
    }
    if !held.node().is_free() {
        return Ended::Again(guard);
    }
    match guard.end(cluster, pass, held) {
        Ok(()) => Ended::Done,
        Err(fault) => not_ended(fault.why, fault.back),
    }
}

/// The node ends the section, if it can now.
fn end_once<N: Member, G: Ending>(
    cluster: &Cluster<N, ()>,
    pass: &mut Pass,
    node: NodeNo,
    guard: G,
) -> Ended<G>
    requires here { IsOf cluster.now pass.old }
    requires node { node < node_count cluster.now }
    ensures here { IsOf cluster.now pass.new }
    ensures told { let s = shape_of cluster.now in
        let done = DoesEnd s node (G.call guard) (λ n. G.may_end n guard) (view_of pass.old) (view_of pass.new) in
        IsEnded done s node (λ n. G.may_end n guard) guard (view_of pass.old) result (view_of pass.new) }
{
    match cluster.hold(pass, node) {
        Ok(mut held) => {
            let answer = end_held(cluster, pass, &mut held, guard);
            cluster.release(pass, held);
            answer
        }
        Err(_) => Ended::Again(guard),
    }
}

/// The node ends the section, or never can.
fn end_or_never<R: Wait, N: Member, G: Ending>(
    rt: &R,
    cluster: &Cluster<N, ()>,
    pass: &mut Pass,
    node: NodeNo,
    guard: G,
) -> Result<(), EndFault<G>>
    requires here { IsOf cluster.now pass.old }
    requires node { node < node_count cluster.now }
    ensures here { IsOf cluster.now pass.new }
    ensures told { let s = shape_of cluster.now in
        MatchResult result (λ _. DoesEnd s node (G.call guard) (λ n. G.may_end n guard) (view_of pass.old) (view_of pass.new))
        (λ back. (back.guard ≡ guard) × IsNeverEnded s node (λ n. G.may_end n guard) (view_of pass.old) back.why (view_of pass.new)) }
{
    let mut guard = guard;
    for _ in rt.forever() {
        match end_once(cluster, pass, node, guard) {
            Ended::Done => return Ok(()),
            Ended::Again(back) => guard = back,
            Ended::Foreign(guard) => {
                return Err(EndFault {
                    guard,
                    why: EndWhy::Foreign,
                });
            }
            Ended::Full(guard) => {
                return Err(EndFault {
                    guard,
                    why: EndWhy::Spent,
                });
            }
        }
        if let Err(Full) = move_all(cluster, pass) {
            return Err(EndFault {
                guard,
                why: EndWhy::Spent,
            });
        }
    }
    Err(EndFault {
        guard,
        why: EndWhy::Spent,
    })
}

/// Whether the history is full.
fn finds_full<G>(answer: &Result<(), EndFault<G>>) -> bool
    ensures { result ≡ is_full_end answer.now }
{
    match answer {
        Ok(()) => false,
        Err(fault) => matches!(fault.why, EndWhy::Spent),
    }
}

/// The caller's node ends the section of the guard.
///
/// # Errors
///
/// By the fault. The guard comes back.
pub(crate) fn end_at_last<R: Wait, N: Member, G: Ending>(
    rt: &R,
    cluster: &Cluster<N, ()>,
    who: &mut Caller,
    guard: G,
) -> Result<(), EndFault<G>>
    requires caller { IsCallerOf cluster.now who.old }
    ensures caller { IsCallerOf cluster.now who.new }
    ensures told { TellsEnd (shape_of cluster.now) (G.call guard) (λ n. G.may_end n guard) who.old guard result who.new }
{
    if who.spent {
        return Err(EndFault {
            guard,
            why: EndWhy::Spent,
        });
    }
    let answer = end_or_never(rt, cluster, &mut who.pass, who.node, guard);
    who.spent = finds_full(&answer);
    answer
}
