//! The collective calls: each caller comes to its next round, and waits until all have come.
ghost use Rattle.std.specs.Prelude.{◌≡◌, ℕ, List};
ghost use Rattle.crl_model.specs.declared.call.Call.TheVariants as call;
ghost use Rattle.crl_model.specs.declared.collective.Part.TheVariants as part;
ghost use Rattle.crl_model.specs.declared.collective.Fold.TheVariants as fold;
ghost use Rattle.crl_protocol.specs.Node as node;
ghost use Rattle.crl_cluster.specs.Clusters.{shape_of};
ghost use Rattle.crl_calls.specs.Callers.{IsCallerOf, Tells};

use crate::asking::ask;
use crate::caller::Caller;
use crate::faults::CallFault;
use crate::forms::{Barriers, Greatests, Leasts, Receives, Sends, Sums};
use crl_cluster::Cluster;
use crl_member::Member;
use crl_model::bytes::Bytes;
use crl_model::call::{Call, CallKind};
use crl_model::collective::Part;
use std::sync::Wait;

/// A barrier.
///
/// # Errors
///
/// Refused: `Mixed`. `OutOfMemory`, `Spent`.
pub fn rgn_barrier<R: Wait, N: Member>(
    rt: &R,
    cluster: &Cluster<N, ()>,
    who: &mut Caller,
) -> Result<(), CallFault>
    requires caller { IsCallerOf cluster.now who.old }
    ensures caller { IsCallerOf cluster.now who.new }
    ensures told { Tells (shape_of cluster.now) (call.Come part.Barrier) who.old (λ _ answer. (round : ℕ) × (answer ≡ node.Came round fold.Barrier)) result who.new }
{
    let part = Part::Barrier;
    ask(
        rt,
        cluster,
        who,
        Call::Come { part },
        CallKind::Barrier,
        Barriers,
    )
}

/// Sends bytes to the callers that receive in this round.
///
/// # Errors
///
/// Refused: `WrongSize` or `Mixed`. `OutOfMemory`, `Spent`.
pub fn rgn_bcast_send<R: Wait, N: Member>(
    rt: &R,
    cluster: &Cluster<N, ()>,
    who: &mut Caller,
    bytes: Bytes,
) -> Result<(), CallFault>
    requires caller { IsCallerOf cluster.now who.old }
    ensures caller { IsCallerOf cluster.now who.new }
    ensures told { Tells (shape_of cluster.now) (call.Come (part.Send bytes)) who.old (λ _ answer. (round : ℕ) × (sent : List ℕ) × (answer ≡ node.Came round (fold.Broadcast sent))) result who.new }
{
    let part = Part::Send(bytes);
    ask(rt, cluster, who, Call::Come { part }, CallKind::Send, Sends)
}

/// Receives the bytes that one caller sends in this round.
///
/// # Errors
///
/// Refused: `Mixed`. `OutOfMemory`, `Spent`.
pub fn rgn_bcast_recv<R: Wait, N: Member>(
    rt: &R,
    cluster: &Cluster<N, ()>,
    who: &mut Caller,
) -> Result<Bytes, CallFault>
    requires caller { IsCallerOf cluster.now who.old }
    ensures caller { IsCallerOf cluster.now who.new }
    ensures told { Tells (shape_of cluster.now) (call.Come part.Receive) who.old (λ bytes answer. (round : ℕ) × (answer ≡ node.Came round (fold.Broadcast bytes))) result who.new }
{
    let part = Part::Receive;
    ask(
        rt,
        cluster,
        who,
        Call::Come { part },
        CallKind::Receive,
        Receives,
    )
}

/// The sum of all callers' values.
///
/// # Errors
///
/// Refused: `Mixed`. `OutOfMemory`, `Spent`.
pub fn rgn_reduce_sum<R: Wait, N: Member>(
    rt: &R,
    cluster: &Cluster<N, ()>,
    who: &mut Caller,
    value: i64,
) -> Result<i128, CallFault>
    requires caller { IsCallerOf cluster.now who.old }
    ensures caller { IsCallerOf cluster.now who.new }
    ensures told { Tells (shape_of cluster.now) (call.Come (part.Sum value)) who.old (λ given answer. (round : ℕ) × (answer ≡ node.Came round (fold.Sum given))) result who.new }
{
    let part = Part::Sum(value);
    ask(rt, cluster, who, Call::Come { part }, CallKind::Sum, Sums)
}

/// The least of all callers' values.
///
/// # Errors
///
/// Refused: `Mixed`. `OutOfMemory`, `Spent`.
pub fn rgn_reduce_min<R: Wait, N: Member>(
    rt: &R,
    cluster: &Cluster<N, ()>,
    who: &mut Caller,
    value: i64,
) -> Result<i64, CallFault>
    requires caller { IsCallerOf cluster.now who.old }
    ensures caller { IsCallerOf cluster.now who.new }
    ensures told { Tells (shape_of cluster.now) (call.Come (part.Min value)) who.old (λ given answer. (round : ℕ) × (answer ≡ node.Came round (fold.Min given))) result who.new }
{
    let part = Part::Min(value);
    ask(rt, cluster, who, Call::Come { part }, CallKind::Min, Leasts)
}

/// The greatest of all callers' values.
///
/// # Errors
///
/// Refused: `Mixed`. `OutOfMemory`, `Spent`.
pub fn rgn_reduce_max<R: Wait, N: Member>(
    rt: &R,
    cluster: &Cluster<N, ()>,
    who: &mut Caller,
    value: i64,
) -> Result<i64, CallFault>
    requires caller { IsCallerOf cluster.now who.old }
    ensures caller { IsCallerOf cluster.now who.new }
    ensures told { Tells (shape_of cluster.now) (call.Come (part.Max value)) who.old (λ given answer. (round : ℕ) × (answer ≡ node.Came round (fold.Max given))) result who.new }
{
    let part = Part::Max(value);
    ask(
        rt,
        cluster,
        who,
        Call::Come { part },
        CallKind::Max,
        Greatests,
    )
}
