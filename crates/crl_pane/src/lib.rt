//! The bytes of a region in the memory of one node, and the guards of its open sections.
//!
//! A `Pane` is raw memory of fixed length. `Reading` shares a pane with the handlers of its node;
//! `Writing` owns one until its end. Both must be spent. A `Shelf` keeps the pane of one region in its
//! place.
#![tactic(auto)]

mod block;
mod guards;
mod pane;
mod shelf;
#[cfg(test)]
mod tests;

pub use guards::{Reading, Writing};
pub use pane::Pane;
pub use shelf::Shelf;
