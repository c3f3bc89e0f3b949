//! The entries of an account: what a node did, or was told, one line each.
ghost use Rattle.std.specs.Prelude.{◌≡◌, IfOk};

use crate::bytes::Bytes;
use crate::call::{CallKind, Refusal};
use crate::collective::{Fold, Part};
use crate::name::Name;
use crate::{NodeNo, OutOfMemory};
use std::alloc::Global;

/// What a refused call was about: a region, or for a collective call the round.
#[derive(Clone, Copy, Debug, PartialEq, Eq)]
pub enum Place {
    Region(Name),
    Round(u64),
}

/// What an entry says of its node.
#[derive(Debug, Drop, PartialEq)]
pub enum What {
    /// It made a region of zeros.
    Create {
        name: Name,
        size: u32,
    },
    /// It mapped the region, which has this size.
    Map {
        name: Name,
        size: u32,
    },
    /// It undid one map.
    Unmap {
        name: Name,
    },
    /// Its read section opened.
    StartRead {
        name: Name,
    },
    /// Its read section ended, and showed these bytes.
    Read {
        name: Name,
        seen: Bytes,
    },
    /// Its write section opened.
    StartWrite {
        name: Name,
    },
    /// Its write section ended: it showed `before` and left `after`.
    Write {
        name: Name,
        before: Bytes,
        after: Bytes,
    },
    /// It sent its copy of the region back.
    Flush {
        name: Name,
    },
    /// Its delete of the region began.
    Deleting {
        name: Name,
    },
    /// Its delete of the region is done.
    Deleted {
        name: Name,
    },
    /// It came to its next round with this part.
    Come {
        part: Part,
    },
    /// It was told what this round, from 1, gives.
    Came {
        round: u64,
        fold: Fold,
    },
    /// Its call was refused.
    Refused {
        kind: CallKind,
        place: Place,
        why: Refusal,
    },
}

/// One entry of an account.
#[derive(Debug, Drop, PartialEq)]
pub struct Entry {
    pub node: NodeNo,
    pub what: What,
}

impl What {
    /// An equal value.
    ///
    /// # Errors
    ///
    /// `OutOfMemory`.
    pub fn copy(&self, alloc: Global) -> Result<What, OutOfMemory>
        ensures { IfOk result (λ w. w ≡ self.now) }
    {
        Ok(match self {
            What::Create { name, size } => What::Create {
                name: *name,
                size: *size,
            },
            What::Map { name, size } => What::Map {
                name: *name,
                size: *size,
            },
            What::Unmap { name } => What::Unmap { name: *name },
            What::StartRead { name } => What::StartRead { name: *name },
            What::Read { name, seen } => What::Read {
                name: *name,
                seen: Bytes::copy_of(alloc, seen.as_slice())?,
            },
            What::StartWrite { name } => What::StartWrite { name: *name },
            What::Write {
                name,
                before,
                after,
            } => What::Write {
                name: *name,
                before: Bytes::copy_of(alloc, before.as_slice())?,
                after: Bytes::copy_of(alloc, after.as_slice())?,
            },
            What::Flush { name } => What::Flush { name: *name },
            What::Deleting { name } => What::Deleting { name: *name },
            What::Deleted { name } => What::Deleted { name: *name },
            What::Come { part } => What::Come {
                part: part.copy(alloc)?,
            },
            What::Came { round, fold } => What::Came {
                round: *round,
                fold: fold.copy(alloc)?,
            },
            What::Refused { kind, place, why } => What::Refused {
                kind: *kind,
                place: *place,
                why: *why,
            },
        })
    }
}

impl Entry {
    /// An equal value.
    ///
    /// # Errors
    ///
    /// `OutOfMemory`.
    pub fn copy(&self, alloc: Global) -> Result<Entry, OutOfMemory>
        ensures { IfOk result (λ e. e ≡ self.now) }
    {
        Ok(Entry {
            node: self.node,
            what: self.what.copy(alloc)?,
        })
    }
}
