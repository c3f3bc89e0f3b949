//! Where each node of a run stands in its rounds of collective calls, and what of them is under way. There is no
//! code here but empty functions, whose contracts are the theorems.
#![tactic(auto)]

pub mod theorems;
