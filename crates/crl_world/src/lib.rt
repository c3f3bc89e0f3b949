//! All nodes of a run in one value: each event that may come, the choices of a turn, and what is read at the end. The
//! world is generic in its nodes, and a contract sees it as the protocol's world.
#![tactic(auto)]

mod carrying;
mod choosing;
mod counts;
mod ending;
mod ends;
mod faults;
mod regions;
mod rows;
mod starting;
mod steps;
mod stuck;
pub mod theorems;
mod world;

pub use counts::Counts;
pub use faults::{CallFault, EndFault, StartFault, StepFault};
pub use steps::EVENT_LIMIT;
pub use world::World;
