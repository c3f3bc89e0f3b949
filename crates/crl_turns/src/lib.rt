//! Values behind turns, and one word that counts a history of events.
//!
//! Each of N parts has a value, which a thread takes and gives back by turns. One word counts the
//! events of a history that lies nowhere: what it is, is said of the fronts of the passes, which
//! exist in contracts alone. A thread appends an event by one exchange of the count, and only where
//! it has the values of all parts that the event touches.
#![tactic(auto)]

mod calls;
mod closing;
mod faults;
mod inner;
mod opening;
mod plays;
mod steps;
pub mod turned;
mod turns;
pub mod view;

pub use crate::closing::NotClosed;
pub use crate::faults::{AppendFault, Busy, CloseWhy};
pub use crate::turns::{Pass, Turns};
pub use std::alloc::AllocError as OutOfMemory;
