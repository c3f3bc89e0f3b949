//! What a node of a run is told and what stands of it in the run's account. There is no code here but empty
//! functions, whose contracts are the theorems.
#![tactic(auto)]

pub mod theorems;
