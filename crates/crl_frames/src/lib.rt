//! Each message of every run has a frame, which is read again as that message. There is no code here but empty functions,
//! whose contracts are the theorems.
#![tactic(auto)]

pub mod theorems;
