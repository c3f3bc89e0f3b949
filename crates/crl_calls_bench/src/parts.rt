//! The part of one thread, from its first call to its last.
ghost use Rattle.crl_calls.specs.Callers.{IsCallerOf};

use crate::failed::Failed;
use crate::plan::{Plan, Work};
use crate::sections::{raise, read};
use crate::threads::Nodes;
use crl_calls::{CallFault, Caller, rgn_barrier, rgn_create, rgn_map};
use crl_model::name::Name;
use std::sync::Wait;
use std::thread;

/// The caller comes to a barrier. It tries again where memory is wanting: the others wait for it.
fn meet<R: Wait>(rt: &R, nodes: &Nodes, who: &mut Caller) -> Result<(), Failed>
    requires caller { IsCallerOf nodes.now who.old }
    ensures caller { IsCallerOf nodes.now who.new }
{
    for _ in rt.forever() {
        match rgn_barrier(rt, nodes, who) {
            Ok(()) => return Ok(()),
            Err(CallFault::OutOfMemory) => thread::yield_now(),
            Err(_) => return Err(Failed),
        }
    }
    unreachable!()
}

/// The caller of the region's home creates and maps it, and raises its number where it is to be read.
fn create<R: Wait>(
    rt: &R,
    nodes: &Nodes,
    who: &mut Caller,
    work: Work,
    name: Name,
) -> Result<(), Failed>
    requires caller { IsCallerOf nodes.now who.old }
    ensures caller { IsCallerOf nodes.now who.new }
{
    if who.node() != name.home() {
        return Ok(());
    }
    rgn_create(rt, nodes, who, work.size())?;
    if work == Work::Reads {
        rgn_map(rt, nodes, who, name)?;
        raise(rt, nodes, who, name)?;
    }
    Ok(())
}

/// One section. The number that it shows, where it is a read section.
fn section<R: Wait>(
    rt: &R,
    nodes: &Nodes,
    who: &mut Caller,
    work: Work,
    name: Name,
) -> Result<u64, Failed>
    requires caller { IsCallerOf nodes.now who.old }
    ensures caller { IsCallerOf nodes.now who.new }
{
    match work {
        Work::Own | Work::OwnLarge | Work::Counter => {
            raise(rt, nodes, who, name)?;
            Ok(0)
        }
        Work::Reads => read(rt, nodes, who, name),
    }
}

/// The caller's sections. The sum of the numbers that read sections showed.
fn sections<R: Wait>(
    rt: &R,
    nodes: &Nodes,
    who: &mut Caller,
    plan: Plan,
    name: Name,
) -> Result<u64, Failed>
    requires caller { IsCallerOf nodes.now who.old }
    ensures caller { IsCallerOf nodes.now who.new }
{
    rgn_map(rt, nodes, who, name)?;
    let mut sum = 0u64;
    for _ in 0..plan.each {
        sum = sum.wrapping_add(section(rt, nodes, who, plan.work, name)?);
    }
    Ok(sum)
}

/// Creates, and does the sections once all have come to a barrier. A caller that failed to create comes to it too.
fn work<R: Wait>(
    rt: &R,
    nodes: &Nodes,
    who: &mut Caller,
    plan: Plan,
    name: Name,
) -> Result<u64, Failed>
    requires caller { IsCallerOf nodes.now who.old }
    ensures caller { IsCallerOf nodes.now who.new }
{
    let created = create(rt, nodes, who, plan.work, name);
    meet(rt, nodes, who)?;
    created?;
    sections(rt, nodes, who, plan, name)
}

/// The caller's part: its work, a barrier, and what its work adds to the sum of all. That is the number in the region once
/// all have done theirs, where the caller is at home there; under `Reads` the sum of what it read.
pub fn take_part<R: Wait>(
    rt: &R,
    nodes: &Nodes,
    who: &mut Caller,
    plan: Plan,
) -> Result<u64, Failed>
    requires caller { IsCallerOf nodes.now who.old }
    ensures caller { IsCallerOf nodes.now who.new }
{
    let name = plan.work.region(who.node());
    let worked = work(rt, nodes, who, plan, name);
    meet(rt, nodes, who)?;
    let sum = worked?;
    if plan.work != Work::Reads && who.node() == name.home() {
        return read(rt, nodes, who, name);
    }
    Ok(sum)
}
