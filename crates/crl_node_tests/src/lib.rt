//! Tests of nodes in code: scripts under chosen orders of their steps, in worlds of such nodes.
//!
//! The accounts that they expect were worked out by hand, from the rules of the protocol.
#![tactic(auto)]

pub mod by_hand;
pub mod driving;
mod playing;
pub mod watched;

pub use playing::play;

#[cfg(test)]
mod calls;
#[cfg(test)]
mod copies;
#[cfg(test)]
mod lives;
#[cfg(test)]
mod pieces;
#[cfg(test)]
mod readings;
#[cfg(test)]
mod refused;
#[cfg(test)]
mod scripts;
