//! The nodes of one region library behind turns, which several threads share. What they did together is one history.
#![tactic(auto)]

mod acting;
mod appending;
mod behind;
mod carrying;
mod closing;
mod cluster;
mod ends;
mod events;
mod faults;
mod held;
mod holding;
mod joining;
mod luggage;
mod relaying;
mod starting;
pub mod theorems;
mod trying;

pub use closing::{Closed, NotClosed};
pub use cluster::{Cluster, Pass};
pub use crl_turns::CloseWhy;
pub use faults::{Busy, NotDone, NotTried, StepFault, TryFault};
pub use held::Held;
pub use luggage::Luggage;
