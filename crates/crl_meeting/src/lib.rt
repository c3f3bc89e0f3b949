//! The acts of a node about rounds of collective calls: it comes to its next round; node 0 gathers a part that comes, and tells
//! all nodes what the round gives; a node is told. Each changes a desk as the protocol's node changes, and takes no memory: the
//! paper for the bytes of a broadcast was made ready before.
#![tactic(auto)]

mod coming;
mod papers;
mod ready;
mod results;
mod telling;
mod waiting;

pub use coming::come;
pub use papers::Papers;
pub use ready::{RoundKit, ready_come, ready_part, ready_result};
pub use telling::{take_part, take_result};
