//! A node as a world drives it: what it shows, the events that it does, and what is read of it at the end. The trait says
//! it all by the protocol's node, for which each member stands.
#![tactic(auto)]

pub mod member;

pub use member::Member;
