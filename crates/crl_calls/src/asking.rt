//! A call is made and answered: it is tried until its node makes it, and then until its answer is collected. Meanwhile
//! pieces are moved.
ghost use Rattle.std.specs.Prelude.{◌≡◌, ◌<◌, MatchResult};
ghost use Rattle.crl_model.specs.declared.event.Event.TheVariants as event;
ghost use Rattle.crl_protocol.specs.Verdict.{word_of};
ghost use Rattle.crl_cluster.specs.Clusters.{view_of, shape_of, node_count, IsOf};
ghost use Rattle.crl_calls.specs.Trails.{Does, MovesToTheEnd, AnswersCall};
ghost use Rattle.crl_calls.specs.Tries.{never_of, is_full, IsNever, IsGiven};
ghost use Rattle.crl_calls.specs.Callers.{IsCallerOf, Tells};

use crate::caller::Caller;
use crate::faults::CallFault;
use crate::forms::Form;
use crate::moving::{Full, full_if, move_all};
use crate::refusals::may_refuse;
use crl_cluster::{Cluster, Pass, StepFault, TryFault};
use crl_guard::{Reading, Standing, Writing};
use crl_member::Member;
use crl_model::NodeNo;
use crl_model::activity::Answer;
use crl_model::call::{Call, CallKind};
use std::sync::Wait;
use std::thread;

/// Why a call gets no answer.
#[derive(Clone, Copy, Debug, Drop, PartialEq)]
pub(crate) enum Never {
    /// The call was not made.
    OutOfMemory,
    /// The history has 2^62 events.
    Full,
}

/// An answer, and whether it was collected.
struct Told {
    answer: Answer<Reading, Writing>,
    later: bool,
}

/// Why a call that was not made never will be. What else was in its way passes: a turn that is out, a node that isn't free, a
/// count that had moved on.
fn never_if(why: TryFault) -> Result<(), Never>
    ensures { result ≡ never_of why }
{
    match why {
        TryFault::Step(StepFault::OutOfMemory) => Err(Never::OutOfMemory),
        TryFault::Step(StepFault::Spent) => Err(Never::Full),
        TryFault::Step(StepFault::Moved { saw: _, found: _ })
        | TryFault::Busy { node: _ }
        | TryFault::Nothing => Ok(()),
    }
}

/// The node makes the call.
fn call_at_last<R: Wait, N: Member>(
    rt: &R,
    cluster: &Cluster<N, ()>,
    pass: &mut Pass,
    node: NodeNo,
    call: Call,
) -> Result<Answer<Reading, Writing>, Never>
    requires here { IsOf cluster.now pass.old }
    requires node { node < node_count cluster.now }
    ensures here { IsOf cluster.now pass.new }
    ensures told { MatchResult result
        (λ answer. Does (shape_of cluster.now) (event.Call node call) (view_of pass.old) answer (view_of pass.new))
        (λ why. IsNever node call (view_of pass.old) why (view_of pass.new)) }
{
    let mut call = call;
    for _ in rt.forever() {
        match cluster.try_call(pass, node, call) {
            Ok(answer) => return Ok(answer),
            Err(refused) => {
                if let Err(never) = never_if(refused.why) {
                    drop(refused.back);
                    return Err(never);
                }
                call = refused.back;
            }
        }
        if let Err(Full) = move_all(cluster, pass) {
            drop(call);
            return Err(Never::Full);
        }
    }
    unreachable!()
}

/// The node takes the answer for which it waits. Want of memory passes.
fn collect_at_last<R: Wait, N: Member>(
    rt: &R,
    cluster: &Cluster<N, ()>,
    pass: &mut Pass,
    node: NodeNo,
) -> Result<Answer<Reading, Writing>, Full>
    requires here { IsOf cluster.now pass.old }
    requires node { node < node_count cluster.now }
    ensures here { IsOf cluster.now pass.new }
    ensures told { MatchResult result
        (λ answer. Does (shape_of cluster.now) (event.Collect node) (view_of pass.old) answer (view_of pass.new))
        (λ _. MovesToTheEnd (view_of pass.old) (view_of pass.new)) }
{
    for _ in rt.forever() {
        match cluster.try_collect(pass, node) {
            Ok(answer) => return Ok(answer),
            Err(why) => {
                if let Err(Full) = full_if(Err(why)) {
                    return Err(Full);
                }
            }
        }
        if let Err(Full) = move_all(cluster, pass) {
            return Err(Full);
        }
    }
    unreachable!()
}

/// The answer to the call, at once or by a collect.
fn answer_to<R: Wait, N: Member>(
    rt: &R,
    cluster: &Cluster<N, ()>,
    pass: &mut Pass,
    node: NodeNo,
    call: Call,
) -> Result<Told, Never>
    requires here { IsOf cluster.now pass.old }
    requires node { node < node_count cluster.now }
    ensures here { IsOf cluster.now pass.new }
    ensures told { MatchResult result
        (λ told. AnswersCall (shape_of cluster.now) node call (view_of pass.old) told.later told.answer (view_of pass.new))
        (λ why. IsNever node call (view_of pass.old) why (view_of pass.new)) }
{
    match call_at_last(rt, cluster, pass, node, call) {
        Ok(Answer::Wait) => match collect_at_last(rt, cluster, pass, node) {
            Ok(answer) => Ok(Told {
                answer,
                later: true,
            }),
            Err(Full) => Err(Never::Full),
        },
        Ok(answer) => Ok(Told {
            answer,
            later: false,
        }),
        Err(never) => Err(never),
    }
}

/// Lets an answer go. A guard in it is discarded.
fn let_go(answer: Answer<Reading, Writing>) {
    let mut standing = Standing::new();
    standing.ready(answer);
}

/// What the answer gives by its form, or that it is a refusal which the call may meet. An answer that is neither is
/// another's: then it doesn't return.
fn given<R: Wait, F: Form>(
    rt: &R,
    word: CallKind,
    form: &F,
    answer: Result<Told, Never>,
) -> Result<F::Out, CallFault>
    ensures { IsGiven (F.gives form.now) word answer result }
{
    match answer {
        Ok(
            Told {
                answer: Answer::Refused(why),
                later,
            },
        ) => {
            if may_refuse(word, later, why) {
                return Err(CallFault::Refused(why));
            }
        }
        Ok(Told { answer, later: _ }) => {
            match form.take(answer) {
                Ok(out) => return Ok(out),
                Err(other) => let_go(other),
            }
        }
        Err(Never::OutOfMemory) => return Err(CallFault::OutOfMemory),
        Err(Never::Full) => return Err(CallFault::Spent),
    }
    for _ in rt.forever() {
        thread::yield_now();
    }
    unreachable!()
}

/// Whether the history is full.
fn finds_full(answer: &Result<Told, Never>) -> bool
    ensures { result ≡ is_full answer.now }
{
    matches!(answer, Err(Never::Full))
}

/// The caller's node makes the call, and the caller gets its answer. An answer that is none of the call's is another's, who
/// calls by the same node: then it doesn't return.
///
/// # Errors
///
/// By the fault.
pub(crate) fn ask<R: Wait, N: Member, F: Form>(
    rt: &R,
    cluster: &Cluster<N, ()>,
    who: &mut Caller,
    call: Call,
    word: CallKind,
    form: F,
) -> Result<F::Out, CallFault>
    requires caller { IsCallerOf cluster.now who.old }
    requires word { word ≡ word_of call }
    ensures caller { IsCallerOf cluster.now who.new }
    ensures told { Tells (shape_of cluster.now) call who.old (F.gives form) result who.new }
{
    if who.spent {
        return Err(CallFault::Spent);
    }
    let answer = answer_to(rt, cluster, &mut who.pass, who.node, call);
    who.spent = finds_full(&answer);
    given(rt, word, &form, answer)
}
