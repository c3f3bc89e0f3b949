//! The run of a script under an order of its steps.
#![tactic(auto)]

mod act;
pub mod actors;
mod choosing;
mod finishing;
mod guards;
mod held;
mod player;
mod reporting;
mod running;
mod taking;
mod turning;
pub mod turns;

pub use act::Act;
pub use finishing::finish;
pub use guards::{Reading, Writing};
pub use held::Held;
pub use player::Player;
pub use running::{RunFault, run};
