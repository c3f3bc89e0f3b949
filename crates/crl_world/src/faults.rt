//! Why a world wasn't made, or an event not done. The world stays as it was.
use crl_model::call::Call;

/// Why a world wasn't made.
#[derive(Clone, Copy, Debug, PartialEq, Eq)]
pub enum StartFault {
    /// There are to be 0 nodes, or more than 64.
    BadNodes,
    OutOfMemory,
}

/// Why a call wasn't made. It is handed back.
#[derive(Debug, Drop)]
pub enum CallFault {
    /// There were 2^62 events.
    Spent(Call),
    OutOfMemory(Call),
}

/// Why a section didn't end. Its guard is handed back.
pub enum EndFault<G> {
    /// The guard is of no section that is open in this world.
    Foreign(G),
    /// There were 2^62 events.
    Spent(G),
}

/// Why an event was not done.
#[derive(Clone, Copy, Debug, PartialEq, Eq)]
pub enum StepFault {
    /// There were 2^62 events.
    Spent,
    OutOfMemory,
}
