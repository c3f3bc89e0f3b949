//! The calls about sections: they are started, which gives a guard, and ended by the guard.
ghost use Rattle.std.specs.Prelude.{◌≡◌, IfOk};
ghost use Rattle.crl_model.specs.declared.call.Call.TheVariants as call;
ghost use Rattle.crl_protocol.specs.Node as node;
ghost use Rattle.crl_cluster.specs.Clusters.{shape_of};
ghost use Rattle.crl_calls.specs.Callers.{knows, IsCallerOf, Tells, TellsEnd, may_end_read, may_end_write};
ghost use Rattle.crl_calls.specs.Shown.{ShowsArray};

use crate::asking::ask;
use crate::caller::Caller;
use crate::ending::end_at_last;
use crate::faults::{CallFault, EndFault};
use crate::forms::{StartsRead, StartsWrite};
use crl_cluster::Cluster;
use crl_guard::{Reading, Writing};
use crl_member::Member;
use crl_model::call::{Call, CallKind};
use crl_model::name::Name;
use std::sync::Wait;

/// Opens a read section. Its guard shows the region's bytes, which stay as they are until its end.
///
/// # Errors
///
/// Refused: `NotMapped`, `SectionOpen` or `TooMany`. `OutOfMemory`, `Spent`.
pub fn rgn_start_read<R: Wait, N: Member>(
    rt: &R,
    cluster: &Cluster<N, ()>,
    who: &mut Caller,
    name: Name,
) -> Result<Reading, CallFault>
    requires caller { IsCallerOf cluster.now who.old }
    ensures caller { IsCallerOf cluster.now who.new }
    ensures told { Tells (shape_of cluster.now) (call.StartRead name) who.old (λ guard answer. (guard.name ≡ name) × (answer ≡ node.Reading guard)) result who.new }
    ensures shows { IfOk result (λ guard. ShowsArray (shape_of cluster.now) (knows who.new).front guard) }
{
    let call = Call::StartRead { name };
    let form = StartsRead { name };
    ask(rt, cluster, who, call, CallKind::Read, form)
}

/// Opens a write section, which excludes all other sections of the region. Its guard begins with the region's bytes.
///
/// # Errors
///
/// Refused: `NotMapped` or `SectionOpen`. `OutOfMemory`, `Spent`.
pub fn rgn_start_write<R: Wait, N: Member>(
    rt: &R,
    cluster: &Cluster<N, ()>,
    who: &mut Caller,
    name: Name,
) -> Result<Writing, CallFault>
    requires caller { IsCallerOf cluster.now who.old }
    ensures caller { IsCallerOf cluster.now who.new }
    ensures told { Tells (shape_of cluster.now) (call.StartWrite name) who.old (λ guard answer. (guard.name ≡ name) × (answer ≡ node.Writing guard)) result who.new }
    ensures shows { IfOk result (λ guard. ShowsArray (shape_of cluster.now) (knows who.new).front guard) }
{
    let call = Call::StartWrite { name };
    let form = StartsWrite { name };
    ask(rt, cluster, who, call, CallKind::Write, form)
}

/// Ends the newest read section of the guard's region. It takes no memory.
///
/// # Errors
///
/// `Foreign` or `Spent`. The guard comes back.
pub fn rgn_end_read<R: Wait, N: Member>(
    rt: &R,
    cluster: &Cluster<N, ()>,
    who: &mut Caller,
    guard: Reading,
) -> Result<(), EndFault<Reading>>
    requires caller { IsCallerOf cluster.now who.old }
    ensures caller { IsCallerOf cluster.now who.new }
    ensures told { TellsEnd (shape_of cluster.now) (call.EndRead guard.name) (λ n. may_end_read n guard) who.old guard result who.new }
{
    end_at_last(rt, cluster, who, guard)
}

/// Ends the write section of the guard's region, which has the guard's bytes from then on. It takes no memory.
///
/// # Errors
///
/// `Foreign` or `Spent`. The guard comes back.
pub fn rgn_end_write<R: Wait, N: Member>(
    rt: &R,
    cluster: &Cluster<N, ()>,
    who: &mut Caller,
    guard: Writing,
) -> Result<(), EndFault<Writing>>
    requires caller { IsCallerOf cluster.now who.old }
    ensures caller { IsCallerOf cluster.now who.new }
    ensures told { TellsEnd (shape_of cluster.now) (call.EndWrite guard.name guard.bytes) (λ n. may_end_write n guard) who.old guard result who.new }
{
    end_at_last(rt, cluster, who, guard)
}
