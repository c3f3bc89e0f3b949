//! One section by a caller.
ghost use Rattle.crl_calls.specs.Callers.{IsCallerOf};

use crate::failed::Failed;
use crate::numbers::{number_in, raise_in};
use crate::threads::Nodes;
use crl_calls::{Caller, EndFault, rgn_end_read, rgn_end_write, rgn_start_read, rgn_start_write};
use crl_model::name::Name;
use std::sync::Wait;

/// A write section that adds 1 to the region's number.
pub fn raise<R: Wait>(rt: &R, nodes: &Nodes, who: &mut Caller, name: Name) -> Result<(), Failed>
    requires caller { IsCallerOf nodes.now who.old }
    ensures caller { IsCallerOf nodes.now who.new }
{
    let mut guard = rgn_start_write(rt, nodes, who, name)?;
    raise_in(guard.bytes_mut());
    match rgn_end_write(rt, nodes, who, guard) {
        Ok(()) => Ok(()),
        Err(EndFault { guard, why: _ }) => {
            guard.discard();
            Err(Failed)
        }
    }
}

/// A read section that shows the region's number.
pub fn read<R: Wait>(rt: &R, nodes: &Nodes, who: &mut Caller, name: Name) -> Result<u64, Failed>
    requires caller { IsCallerOf nodes.now who.old }
    ensures caller { IsCallerOf nodes.now who.new }
{
    let guard = rgn_start_read(rt, nodes, who, name)?;
    let number = number_in(guard.bytes());
    match rgn_end_read(rt, nodes, who, guard) {
        Ok(()) => Ok(number),
        Err(EndFault { guard, why: _ }) => {
            guard.discard();
            Err(Failed)
        }
    }
}
