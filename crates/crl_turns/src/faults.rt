//! Why a call did nothing.

/// The turn is out.
#[derive(Debug, Drop, Clone, Copy, PartialEq)]
pub struct Busy;

/// Why an event was not appended.
#[derive(Debug, Drop, Clone, Copy, PartialEq)]
pub enum AppendFault {
    /// Others had appended events: the count was `found`, which is over `saw`.
    Moved { saw: u64, found: u64 },
    /// The history has 2^62 events, and takes no more.
    Spent,
}

/// Why the turns were not closed.
#[derive(Debug, Drop, Clone, Copy, PartialEq)]
pub enum CloseWhy {
    OutOfMemory,
    /// The turn of this part is out.
    Busy { part: usize },
}
