//! Laws of the protocol's definitions: what each event does, said once as one of few deeds; and what follows
//! from it for every run. There is no code here but empty functions, whose contracts are the laws.
#![tactic(auto)]

pub mod deeds;
pub mod facts;
pub mod theorems;
