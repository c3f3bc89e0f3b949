//! What nodes bring to a collective call, and what it gives them.
ghost use Rattle.std.specs.Prelude.{◌≡◌, IfOk};
ghost use Rattle.crl_model.specs.Calls.{kind_of};

use crate::OutOfMemory;
use crate::bytes::Bytes;
use crate::call::CallKind;
use std::alloc::Global;

/// What one node brings to a round.
#[derive(Debug, Drop, PartialEq)]
pub enum Part {
    Barrier,
    Send(Bytes),
    Receive,
    Sum(i64),
    Min(i64),
    Max(i64),
}

/// What a round gives to every node: `Mixed` where the parts don't agree.
#[derive(Debug, Drop, PartialEq)]
pub enum Fold {
    Barrier,
    Broadcast(Bytes),
    Sum(i128),
    Min(i64),
    Max(i64),
    Mixed,
}

impl Part {
    /// The call that brings the part.
    pub fn kind(&self) -> CallKind
        ensures { result ≡ kind_of self.now }
    {
        match self {
            Part::Barrier => CallKind::Barrier,
            Part::Send(_) => CallKind::Send,
            Part::Receive => CallKind::Receive,
            Part::Sum(_) => CallKind::Sum,
            Part::Min(_) => CallKind::Min,
            Part::Max(_) => CallKind::Max,
        }
    }

    /// An equal value.
    ///
    /// # Errors
    ///
    /// `OutOfMemory`.
    pub fn copy(&self, alloc: Global) -> Result<Part, OutOfMemory>
        ensures { IfOk result (λ p. p ≡ self.now) }
    {
        Ok(match self {
            Part::Barrier => Part::Barrier,
            Part::Send(bytes) => Part::Send(Bytes::copy_of(alloc, bytes.as_slice())?),
            Part::Receive => Part::Receive,
            Part::Sum(value) => Part::Sum(*value),
            Part::Min(value) => Part::Min(*value),
            Part::Max(value) => Part::Max(*value),
        })
    }
}

impl Fold {
    /// An equal value.
    ///
    /// # Errors
    ///
    /// `OutOfMemory`.
    pub fn copy(&self, alloc: Global) -> Result<Fold, OutOfMemory>
        ensures { IfOk result (λ f. f ≡ self.now) }
    {
        Ok(match self {
            Fold::Barrier => Fold::Barrier,
            Fold::Broadcast(bytes) => Fold::Broadcast(Bytes::copy_of(alloc, bytes.as_slice())?),
            Fold::Sum(value) => Fold::Sum(*value),
            Fold::Min(value) => Fold::Min(*value),
            Fold::Max(value) => Fold::Max(*value),
            Fold::Mixed => Fold::Mixed,
        })
    }
}
