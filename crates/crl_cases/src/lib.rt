//! Cases of the program's commands, and how they are tried over sources and sinks in memory.
//!
//! A case is text: what it shows, the words, the input, the exit status and the output, with a bar between two. A page
//! is cases with a percent sign between two. So a test is a loop over its pages, and what it costs to prove doesn't
//! grow with them.
#![tactic(auto)]

pub mod page;
pub mod table;
pub mod trial;
