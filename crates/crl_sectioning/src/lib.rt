//! The calls of a node about sections: starts, ends and flushes. Each changes a desk as the protocol's node changes, and takes no
//! memory: what it uses up was made ready before, or lies in the section that ends.
#![tactic(auto)]

mod flushing;
mod place;
mod reading;
mod recording;
mod starting;
mod writing;

pub use flushing::{flush, ready_flush};
pub use reading::end_read;
pub use starting::start;
pub use writing::end_write;
