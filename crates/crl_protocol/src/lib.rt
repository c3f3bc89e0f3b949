//! The protocol of the region library, as definitions: what a region's home and the other nodes keep, which
//! messages they send, and which runs there are. There is no code here but empty functions, whose
//! contracts are worked runs that the definitions compute.
#![tactic(auto)]

pub mod worked;
