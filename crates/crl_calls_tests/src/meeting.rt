//! Callers meet: a barrier, a broadcast and a reduction.
ghost use Rattle.crl_calls.specs.Callers.{IsCallerOf};

use crate::callers::Nodes;
use crl_calls::{
    CallFault, Caller, rgn_barrier, rgn_bcast_recv, rgn_bcast_send, rgn_reduce_max, rgn_reduce_min,
    rgn_reduce_sum,
};
use crl_model::bytes::Bytes;
use std::alloc::Global;
use std::sync::Wait;

/// What a caller heard of the others: the first byte of a broadcast, and what their numbers give.
#[derive(Clone, Copy, Debug, Drop, PartialEq)]
pub struct Heard {
    pub first: u8,
    pub sum: i128,
    pub least: i64,
    pub greatest: i64,
}

/// The caller of node 0 sends this byte, and the others receive it.
fn told<R: Wait>(
    rt: &R,
    alloc: Global,
    nodes: &Nodes,
    who: &mut Caller,
    byte: u8,
) -> Result<u8, CallFault>
    requires caller { IsCallerOf nodes.now who.old }
    ensures caller { IsCallerOf nodes.now who.new }
{
    if who.node() == 0 {
        let Ok(bytes) = Bytes::copy_of(alloc, &[byte]) else {
            return Err(CallFault::OutOfMemory);
        };
        rgn_bcast_send(rt, nodes, who, bytes)?;
        return Ok(byte);
    }
    let bytes = rgn_bcast_recv(rt, nodes, who)?;
    Ok(match bytes.as_slice().first() {
        Some(first) => *first,
        None => 0,
    })
}

/// The caller comes to five rounds.
///
/// # Errors
///
/// The first fault of a call.
pub fn meet<R: Wait>(
    rt: &R,
    alloc: Global,
    nodes: &Nodes,
    who: &mut Caller,
    byte: u8,
) -> Result<Heard, CallFault>
    requires caller { IsCallerOf nodes.now who.old }
    ensures caller { IsCallerOf nodes.now who.new }
{
    rgn_barrier(rt, nodes, who)?;
    let first = told(rt, alloc, nodes, who, byte)?;
    let value = who.node() as i64;
    let sum = rgn_reduce_sum(rt, nodes, who, value)?;
    let least = rgn_reduce_min(rt, nodes, who, value)?;
    let greatest = rgn_reduce_max(rt, nodes, who, value)?;
    Ok(Heard {
        first,
        sum,
        least,
        greatest,
    })
}
