//! Why a call did nothing.

use crl_model::NodeNo;

/// The turn of this node is out.
#[derive(Debug, Drop, Clone, Copy, PartialEq)]
pub struct Busy {
    pub node: NodeNo,
}

/// Why an event was not done. The node is as it was.
#[derive(Debug, Drop, Clone, Copy, PartialEq)]
pub enum StepFault {
    /// Before anything was tried.
    OutOfMemory,
    /// Others had appended events: the count was `found`, over `saw`, which had been loaded.
    Moved { saw: u64, found: u64 },
    /// The history has 2^62 events, and takes no more.
    Spent,
}

/// Why an event was not done at a node that was to be held for it.
#[derive(Debug, Drop, Clone, Copy, PartialEq)]
pub enum TryFault {
    /// The turn of this node is out.
    Busy { node: NodeNo },
    /// The node has nothing of the kind to do.
    Nothing,
    /// The event was not done.
    Step(StepFault),
}

/// What was given comes back.
#[derive(Debug, Drop)]
pub struct NotDone<G> {
    pub why: StepFault,
    pub back: G,
}

/// What was given for a node that was to be held comes back.
#[derive(Debug, Drop)]
pub struct NotTried<G> {
    pub why: TryFault,
    pub back: G,
}
