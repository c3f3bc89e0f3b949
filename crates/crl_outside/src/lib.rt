//! The library's edge: where bytes come from and where they go, with a count of what failed there.
//!
//! A `Source` gives bytes and a `Sink` takes them. Contracts see of each the bytes that it has left
//! or holds, where it tells them, and a count of its faults. A call that blames a failure on the
//! outside is held to that count: it ensures that the count rose, by `Rose` of `specs/Faults.antt`.
#![tactic(auto)]

pub mod adapters;
pub mod memory_sink;
pub mod memory_source;
pub mod sink;
pub mod source;
pub mod whole;

/// A pull or a push failed. The source or the sink has counted it.
#[derive(Clone, Copy, Debug, PartialEq, Eq)]
pub struct Failed;
