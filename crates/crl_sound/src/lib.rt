//! Every node of every run is safe, and so is what comes to it and what it sends. There is no code here but empty
//! functions, whose contracts are the theorems.
#![tactic(auto)]

pub mod theorems;
