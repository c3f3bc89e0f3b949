//! What a node is at, and what a call gives it. The types of the guards are parameters: what a program holds
//! while a read section is open, and what it holds while a write section is open.
use crate::NodeNo;
use crate::call::{CallKind, Refusal};
use crate::collective::Fold;
use crate::name::Name;

/// What a node waits for.
#[derive(Clone, Copy, Debug, PartialEq, Eq)]
pub enum Awaited {
    /// A section of the region.
    ForSection { name: Name },
    /// The answer of the region's home to a map; whether a purge of the name came meanwhile.
    ForMap { name: Name, purged: bool },
    /// The answer of the region's home to a delete.
    ForDelete { name: Name },
    /// The result of the round, to which this call of the node brought its part.
    ForRound { round: u64, kind: CallKind },
}

/// What a call gives its node.
#[derive(Debug, Drop)]
pub enum Answer<R, W> {
    Made(Name),
    Mapped { name: Name, size: u32 },
    Reading(R),
    Writing(W),
    Done,
    Came { round: u64, fold: Fold },
    Refused(Refusal),
    /// It isn't decided yet.
    Wait,
}

/// What a node is at: nothing, a wait, or an answer that it has yet to take.
#[derive(Debug, Drop)]
pub enum Activity<R, W> {
    Free,
    Waiting(Awaited),
    Ready(Answer<R, W>),
}
