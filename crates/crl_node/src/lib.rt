//! A node in code: a member of a world, each of whose events is the protocol's.
#![tactic(auto)]

mod acting;
mod calling;
mod carrying;
mod concluding;
mod copies;
mod framing;
mod gathering;
mod handling;
mod hearing;
mod kits;
mod membership;
mod names;
mod node;
mod readying;
mod rounds;
mod showing;

pub use node::Node;
