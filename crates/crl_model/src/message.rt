//! The messages that nodes send each other. They may come in any order; none is lost, and none comes
//! twice.
ghost use Rattle.std.specs.Prelude.{IfOk, ◌≡◌};

use crate::bytes::Bytes;
use crate::collective::{Fold, Part};
use crate::name::Name;
use crate::{NodeNo, OutOfMemory};
use std::alloc::Global;

/// What the home of a name says of it to a node that maps it.
#[derive(Clone, Copy, Debug, PartialEq, Eq)]
pub enum Told {
    Live { size: u32 },
    Unknown,
    Deleted,
}

/// What the home of a name says to a node that deletes it.
#[derive(Clone, Copy, Debug, PartialEq, Eq)]
pub enum DeleteTold {
    Done,
    Unknown,
    Deleted,
}

/// What a grant gives: a shared copy, an exclusive copy, or leave to take the shared copy that the node
/// has for an exclusive one.
#[derive(Debug, Drop, PartialEq)]
pub enum Granted {
    Shared(Bytes),
    Exclusive(Bytes),
    Upgrade,
}

/// What a message says. Of the kinds with a name, the home of the name is the addressee of `InfoAsk`,
/// `Ask`, `Return`, `DeleteAsk`, `Purged` and `Release`, and the sender of all others. `Come` goes to
/// node 0, and `Result` comes from it.
#[derive(Debug, Drop, PartialEq)]
pub enum Kind {
    /// The sender maps the region, and asks whether it is there.
    InfoAsk {
        name: Name,
    },
    /// The answer to `InfoAsk`.
    InfoIs {
        name: Name,
        told: Told,
    },
    /// The sender asks for a copy, to write or to read. `have` is the version of the shared copy that it
    /// has, where it asks to write, else 0.
    Ask {
        name: Name,
        write: bool,
        have: u64,
    },
    /// The answer to `Ask`: the copy has this version.
    Grant {
        name: Name,
        version: u64,
        granted: Granted,
    },
    /// The home wants the copy of this version back.
    Recall {
        name: Name,
        version: u64,
    },
    /// The copy of this version comes back, with its bytes where the home may lack them.
    Return {
        name: Name,
        version: u64,
        bytes: Option<Bytes>,
    },
    /// The sender deletes the region.
    DeleteAsk {
        name: Name,
    },
    /// The answer to `DeleteAsk`.
    DeleteIs {
        name: Name,
        told: DeleteTold,
    },
    /// The region is being deleted.
    Purge {
        name: Name,
    },
    /// The answer to `Purge`.
    Purged {
        name: Name,
    },
    /// The sender comes to the round with its part.
    Come {
        round: u64,
        part: Part,
    },
    /// What the round gives.
    Result {
        round: u64,
        fold: Fold,
    },
    /// The home wants the exclusive copy of this version to become a shared one.
    Yield {
        name: Name,
        version: u64,
    },
    /// The exclusive copy of this version became a shared one, and these are its bytes.
    Release {
        name: Name,
        version: u64,
        bytes: Bytes,
    },
}

/// A message between two nodes.
#[derive(Debug, Drop, PartialEq)]
pub struct Message {
    pub sender: NodeNo,
    pub addressee: NodeNo,
    pub kind: Kind,
}

impl Granted {
    /// An equal value.
    ///
    /// # Errors
    ///
    /// `OutOfMemory`.
    pub fn copy(&self, alloc: Global) -> Result<Granted, OutOfMemory>
        ensures { IfOk result (λ g. g ≡ self.now) }
    {
        Ok(match self {
            Granted::Shared(bytes) => Granted::Shared(Bytes::copy_of(alloc, bytes.as_slice())?),
            Granted::Exclusive(bytes) => Granted::Exclusive(Bytes::copy_of(
                alloc,
                bytes.as_slice(),
            )?),
            Granted::Upgrade => Granted::Upgrade,
        })
    }
}

/// An equal value.
fn copy_bytes(alloc: Global, bytes: &Option<Bytes>) -> Result<Option<Bytes>, OutOfMemory>
    ensures { IfOk result (λ b. b ≡ bytes.now) }
{
    Ok(match bytes {
        Some(bytes) => Some(Bytes::copy_of(alloc, bytes.as_slice())?),
        None => None,
    })
}

impl Kind {
    /// An equal value.
    ///
    /// # Errors
    ///
    /// `OutOfMemory`.
    pub fn copy(&self, alloc: Global) -> Result<Kind, OutOfMemory>
        ensures { IfOk result (λ k. k ≡ self.now) }
    {
        Ok(match self {
            &Kind::InfoAsk { name } => Kind::InfoAsk { name },
            &Kind::InfoIs { name, told } => Kind::InfoIs { name, told },
            &Kind::Ask { name, write, have } => Kind::Ask { name, write, have },
            &Kind::Recall { name, version } => Kind::Recall { name, version },
            &Kind::DeleteAsk { name } => Kind::DeleteAsk { name },
            &Kind::DeleteIs { name, told } => Kind::DeleteIs { name, told },
            &Kind::Purge { name } => Kind::Purge { name },
            &Kind::Purged { name } => Kind::Purged { name },
            &Kind::Yield { name, version } => Kind::Yield { name, version },
            Kind::Grant {
                name,
                version,
                granted,
            } => Kind::Grant {
                name: *name,
                version: *version,
                granted: granted.copy(alloc)?,
            },
            Kind::Return {
                name,
                version,
                bytes,
            } => Kind::Return {
                name: *name,
                version: *version,
                bytes: copy_bytes(alloc, bytes)?,
            },
            Kind::Release {
                name,
                version,
                bytes,
            } => Kind::Release {
                name: *name,
                version: *version,
                bytes: Bytes::copy_of(alloc, bytes.as_slice())?,
            },
            Kind::Come { round, part } => Kind::Come {
                round: *round,
                part: part.copy(alloc)?,
            },
            Kind::Result { round, fold } => Kind::Result {
                round: *round,
                fold: fold.copy(alloc)?,
            },
        })
    }
}

impl Message {
    /// An equal value.
    ///
    /// # Errors
    ///
    /// `OutOfMemory`.
    pub fn copy(&self, alloc: Global) -> Result<Message, OutOfMemory>
        ensures { IfOk result (λ m. m ≡ self.now) }
    {
        Ok(Message {
            sender: self.sender,
            addressee: self.addressee,
            kind: self.kind.copy(alloc)?,
        })
    }
}
