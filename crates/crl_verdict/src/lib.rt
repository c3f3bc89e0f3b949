//! What a node knows at once of a call: the first reason for which it is refused, in the order in which the reasons are
//! tested. Of a map or a delete of another home's region the home may know another.
#![tactic(auto)]

mod calls;
mod reasons;

pub use calls::verdict;
