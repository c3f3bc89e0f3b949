//! A run of so many calls sends only so many messages and has only so many events. There is no code here but empty
//! functions, whose contracts are the theorems.
#![tactic(auto)]

pub mod theorems;
