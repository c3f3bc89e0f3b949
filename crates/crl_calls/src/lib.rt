//! The calls of a program: each waits for its answer at the node of its caller, and moves pieces meanwhile.
#![tactic(auto)]

mod asking;
mod caller;
mod ending;
mod faults;
mod forms;
mod moving;
mod names;
mod refusals;
mod rounds;
mod sections;
mod starting;
pub mod theorems;

pub use caller::Caller;
pub use faults::{CallFault, EndFault, EndWhy};
pub use names::{Mapped, rgn_create, rgn_delete, rgn_flush, rgn_map, rgn_rid, rgn_size, rgn_unmap};
pub use rounds::{
    rgn_barrier, rgn_bcast_recv, rgn_bcast_send, rgn_reduce_max, rgn_reduce_min, rgn_reduce_sum,
};
pub use sections::{rgn_end_read, rgn_end_write, rgn_start_read, rgn_start_write};
pub use starting::callers;
