//! Why a call has no answer that is Ok.
use crl_model::call::Refusal;
use thiserror::Error;

/// Why a call has no answer that is Ok.
#[derive(Clone, Copy, Debug, Drop, PartialEq, Error)]
pub enum CallFault {
    #[error("the call was refused: {0:?}")]
    Refused(Refusal),
    /// The history has 2^62 events. So it is at each later call of this caller.
    #[error("the history takes no more events")]
    Spent,
    /// The call was not made.
    #[error("out of memory")]
    OutOfMemory,
}

/// Why a section was not ended.
#[derive(Clone, Copy, Debug, Drop, PartialEq, Error)]
pub enum EndWhy {
    /// The guard is of no section that is open at the caller's node.
    #[error("the guard is of no open section of the node")]
    Foreign,
    /// The history has 2^62 events. So it is at each later call of this caller.
    #[error("the history takes no more events")]
    Spent,
}

/// A section was not ended. Its guard comes back.
pub struct EndFault<G> {
    pub guard: G,
    pub why: EndWhy,
}
