//! The calls about regions: they are made, mapped, flushed, unmapped and deleted.
ghost use Rattle.std.specs.Prelude.{◌≡◌};
ghost use Rattle.crl_model.specs.declared.call.Call.TheVariants as call;
ghost use Rattle.crl_protocol.specs.Node as node;
ghost use Rattle.crl_cluster.specs.Clusters.{shape_of};
ghost use Rattle.crl_calls.specs.Callers.{IsCallerOf, Tells};

use crate::asking::ask;
use crate::caller::Caller;
use crate::faults::CallFault;
use crate::forms::{Creates, GivesNothing, Maps};
use crl_cluster::Cluster;
use crl_member::Member;
use crl_model::call::{Call, CallKind};
use crl_model::name::Name;
use std::sync::Wait;

/// A region that is mapped: its name, and its size in bytes.
#[derive(Clone, Copy, Debug, Drop, PartialEq)]
pub struct Mapped {
    pub name: Name,
    pub size: u32,
}

/// The name of a mapped region.
pub fn rgn_rid(mapped: &Mapped) -> Name
    ensures { result ≡ mapped.now.name }
{
    mapped.name
}

/// The size in bytes of a mapped region.
pub fn rgn_size(mapped: &Mapped) -> u32
    ensures { result ≡ mapped.now.size }
{
    mapped.size
}

/// A new region of so many zeros, at the caller's node.
///
/// # Errors
///
/// Refused: `BadSize` or `NamesSpent`. `OutOfMemory`, `Spent`.
pub fn rgn_create<R: Wait, N: Member>(
    rt: &R,
    cluster: &Cluster<N, ()>,
    who: &mut Caller,
    size: u32,
) -> Result<Name, CallFault>
    requires caller { IsCallerOf cluster.now who.old }
    ensures caller { IsCallerOf cluster.now who.new }
    ensures told { Tells (shape_of cluster.now) (call.Create size) who.old (λ name answer. answer ≡ node.Made name) result who.new }
{
    let call = Call::Create { size };
    ask(rt, cluster, who, call, CallKind::Create, Creates)
}

/// Ends the region, and waits until no node has it in its cache.
///
/// # Errors
///
/// Refused: `Unknown` or `Deleted`. `OutOfMemory`, `Spent`.
pub fn rgn_delete<R: Wait, N: Member>(
    rt: &R,
    cluster: &Cluster<N, ()>,
    who: &mut Caller,
    name: Name,
) -> Result<(), CallFault>
    requires caller { IsCallerOf cluster.now who.old }
    ensures caller { IsCallerOf cluster.now who.new }
    ensures told { Tells (shape_of cluster.now) (call.Delete name) who.old (λ _ answer. answer ≡ node.Done) result who.new }
{
    let call = Call::Delete { name };
    ask(rt, cluster, who, call, CallKind::Delete, GivesNothing)
}

/// Lets the caller's node use the region. Maps are counted.
///
/// # Errors
///
/// Refused: `Unknown`, `Deleted` or `TooMany`. `OutOfMemory`, `Spent`.
pub fn rgn_map<R: Wait, N: Member>(
    rt: &R,
    cluster: &Cluster<N, ()>,
    who: &mut Caller,
    name: Name,
) -> Result<Mapped, CallFault>
    requires caller { IsCallerOf cluster.now who.old }
    ensures caller { IsCallerOf cluster.now who.new }
    ensures told { Tells (shape_of cluster.now) (call.Map name) who.old (λ mapped answer. (mapped.name ≡ name) × (answer ≡ node.Mapped name mapped.size)) result who.new }
{
    let call = Call::Map { name };
    ask(rt, cluster, who, call, CallKind::Map, Maps { name })
}

/// Undoes one map.
///
/// # Errors
///
/// Refused: `NotMapped` or `InSection`. `OutOfMemory`, `Spent`.
pub fn rgn_unmap<R: Wait, N: Member>(
    rt: &R,
    cluster: &Cluster<N, ()>,
    who: &mut Caller,
    name: Name,
) -> Result<(), CallFault>
    requires caller { IsCallerOf cluster.now who.old }
    ensures caller { IsCallerOf cluster.now who.new }
    ensures told { Tells (shape_of cluster.now) (call.Unmap name) who.old (λ _ answer. answer ≡ node.Done) result who.new }
{
    let call = Call::Unmap { name };
    ask(rt, cluster, who, call, CallKind::Unmap, GivesNothing)
}

/// Sends the node's copy of the region back to its home.
///
/// # Errors
///
/// Refused: `NotMapped` or `InSection`. `OutOfMemory`, `Spent`.
pub fn rgn_flush<R: Wait, N: Member>(
    rt: &R,
    cluster: &Cluster<N, ()>,
    who: &mut Caller,
    name: Name,
) -> Result<(), CallFault>
    requires caller { IsCallerOf cluster.now who.old }
    ensures caller { IsCallerOf cluster.now who.new }
    ensures told { Tells (shape_of cluster.now) (call.Flush name) who.old (λ _ answer. answer ≡ node.Done) result who.new }
{
    let call = Call::Flush { name };
    ask(rt, cluster, who, call, CallKind::Flush, GivesNothing)
}
