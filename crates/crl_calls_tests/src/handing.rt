//! A region goes to and fro between callers: each adds one to its first byte when it is its turn. One writes it and reads it.
ghost use Rattle.crl_calls.specs.Callers.{IsCallerOf};

use crate::callers::Nodes;
use crl_calls::{
    CallFault, Caller, EndFault, rgn_end_read, rgn_end_write, rgn_map, rgn_start_read,
    rgn_start_write, rgn_unmap,
};
use crl_guard::Writing;
use crl_model::name::Name;
use std::sync::Wait;

/// Adds one to the first byte where it has this parity, and says whether it did.
fn add_one(guard: &mut Writing, parity: u8) -> bool {
    match guard.bytes_mut().first_mut() {
        Some(first) if *first % 2 == parity => {
            *first = first.wrapping_add(1);
            true
        }
        _ => false,
    }
}

/// The fault of the end of a write section, whose guard is let go.
fn ended(answer: Result<(), EndFault<Writing>>) -> Result<(), CallFault> {
    match answer {
        Ok(()) => Ok(()),
        Err(EndFault { guard, why: _ }) => {
            guard.discard();
            Err(CallFault::Spent)
        }
    }
}

/// The region is written once, if it is the caller's turn, and says whether it was.
fn take_turn<R: Wait>(
    rt: &R,
    nodes: &Nodes,
    who: &mut Caller,
    name: Name,
    parity: u8,
) -> Result<bool, CallFault>
    requires caller { IsCallerOf nodes.now who.old }
    ensures caller { IsCallerOf nodes.now who.new }
{
    let mut guard = rgn_start_write(rt, nodes, who, name)?;
    let mine = add_one(&mut guard, parity);
    ended(rgn_end_write(rt, nodes, who, guard))?;
    Ok(mine)
}

/// The caller maps the region, adds one to its first byte so many times, each when the byte has this parity, and unmaps it.
///
/// # Errors
///
/// The first fault of a call.
pub fn hand<R: Wait>(
    rt: &R,
    nodes: &Nodes,
    who: &mut Caller,
    name: Name,
    parity: u8,
    times: u32,
) -> Result<(), CallFault>
    requires caller { IsCallerOf nodes.now who.old }
    ensures caller { IsCallerOf nodes.now who.new }
{
    rgn_map(rt, nodes, who, name)?;
    let mut done = 0;
    for _ in rt.forever() {
        if done >= times {
            break;
        }
        if take_turn(rt, nodes, who, name, parity)? {
            done += 1;
        }
    }
    rgn_unmap(rt, nodes, who, name)
}

/// The caller writes the region once: its first byte.
///
/// # Errors
///
/// The first fault of a call.
pub fn write_first<R: Wait>(
    rt: &R,
    nodes: &Nodes,
    who: &mut Caller,
    name: Name,
    byte: u8,
) -> Result<(), CallFault>
    requires caller { IsCallerOf nodes.now who.old }
    ensures caller { IsCallerOf nodes.now who.new }
{
    let mut guard = rgn_start_write(rt, nodes, who, name)?;
    if let Some(first) = guard.bytes_mut().first_mut() {
        *first = byte;
    }
    ended(rgn_end_write(rt, nodes, who, guard))
}

/// Whether a read section of the region, which is mapped, shows these bytes.
///
/// # Errors
///
/// The first fault of a call.
pub fn shows<R: Wait>(
    rt: &R,
    nodes: &Nodes,
    who: &mut Caller,
    name: Name,
    bytes: &[u8],
) -> Result<bool, CallFault>
    requires caller { IsCallerOf nodes.now who.old }
    ensures caller { IsCallerOf nodes.now who.new }
{
    let guard = rgn_start_read(rt, nodes, who, name)?;
    let same = guard.bytes() == bytes;
    match rgn_end_read(rt, nodes, who, guard) {
        Ok(()) => Ok(same),
        Err(EndFault { guard, why: _ }) => {
            guard.discard();
            Err(CallFault::Spent)
        }
    }
}
