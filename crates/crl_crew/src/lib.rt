//! Worker threads that drive all nodes of a script together, and the report of what they did.
#![tactic(auto)]

mod acting;
mod crew;
mod crews;
mod ending;
mod gate;
mod making;
mod messages;
mod place;
mod threads;
mod visiting;
mod workers;

pub use crew::work;
pub use gate::{Gate, NoGate};
