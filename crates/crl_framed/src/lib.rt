//! What stands in the frames of the pieces in boxes fits its field, in every run. There is no code here but empty functions,
//! whose contracts are the theorems.
#![tactic(auto)]

pub mod theorems;
