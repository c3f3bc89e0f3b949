//! The single machine with one array of byte regions, against which every history is judged.
#![tactic(auto)]

pub mod machine;
mod node_row;
mod region;
mod round;
pub mod share;
pub mod theorems;
