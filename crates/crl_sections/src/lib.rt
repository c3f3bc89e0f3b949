//! The open sections of a node, with the bytes that each began with, and the paper for the entry of its end.
#![tactic(auto)]

mod open;
mod sections;
#[cfg(test)]
mod tests;

pub use sections::Sections;
