//! The calls of a node, and the reasons for which one is refused.
ghost use Rattle.std.specs.Prelude.{◌≡◌, IfOk};
ghost use Rattle.crl_model.specs.Calls.{asks_the_home, needs_map, needs_write, needs_close, has_range};

use crate::OutOfMemory;
use crate::bytes::Bytes;
use crate::collective::Part;
use crate::name::Name;
use std::alloc::Global;

/// A call of a node.
#[derive(Debug, Drop, PartialEq)]
pub enum Call {
    /// Makes a region of zeros; the node becomes its home.
    Create { size: u32 },
    /// Ends the region: no node maps it anew. Nodes that have it mapped use it until their last unmap.
    Delete { name: Name },
    /// Lets the node use the region. Maps are counted.
    Map { name: Name },
    /// Undoes one map.
    Unmap { name: Name },
    /// Opens a read section, in which the region's bytes stay as they are.
    StartRead { name: Name },
    /// Ends the newest read section.
    EndRead { name: Name },
    /// Opens a write section, which excludes all other sections of the region.
    StartWrite { name: Name },
    /// Ends the write section; `after` becomes the region's bytes.
    EndWrite { name: Name, after: Bytes },
    /// Changes `len` bytes of the open write section from `offset` on.
    Put { name: Name, offset: u32, len: u32 },
    /// Adds to the eight bytes of the open write section from `offset` on.
    Add { name: Name, offset: u32 },
    /// Sends the node's copy of the region back to its home.
    Flush { name: Name },
    /// Comes to the node's next round with this part.
    Come { part: Part },
}

/// The script's words that make a call.
#[derive(Clone, Copy, Debug, PartialEq, Eq)]
pub enum CallKind {
    Create,
    Delete,
    Map,
    Unmap,
    Read,
    EndRead,
    Write,
    Put,
    Add,
    EndWrite,
    Flush,
    Barrier,
    Send,
    Receive,
    Sum,
    Min,
    Max,
}

impl CallKind {
    /// A map or a delete: it may name a region that isn't there.
    pub fn asks_the_home(self) -> bool
        ensures { result ≡ asks_the_home self }
    {
        matches!(self, CallKind::Map | CallKind::Delete)
    }

    /// A call about a region that the node has to have mapped.
    pub fn needs_map(self) -> bool
        ensures { result ≡ needs_map self }
    {
        matches!(
            self,
            CallKind::Unmap
                | CallKind::Read
                | CallKind::EndRead
                | CallKind::Write
                | CallKind::Put
                | CallKind::Add
                | CallKind::EndWrite
                | CallKind::Flush
        )
    }

    /// A call inside a write section.
    pub fn needs_write(self) -> bool
        ensures { result ≡ needs_write self }
    {
        matches!(self, CallKind::Put | CallKind::Add | CallKind::EndWrite)
    }

    /// A call outside all sections.
    pub fn needs_close(self) -> bool
        ensures { result ≡ needs_close self }
    {
        matches!(self, CallKind::Unmap | CallKind::Flush)
    }

    /// A call that changes some of the bytes.
    pub fn has_range(self) -> bool
        ensures { result ≡ has_range self }
    {
        matches!(self, CallKind::Put | CallKind::Add)
    }
}

/// Why a call is refused. A call that several of these fit is refused for the first of them.
#[derive(Clone, Copy, Debug, PartialEq, Eq)]
pub enum Refusal {
    /// A create of 0 bytes, or of more than a region has.
    BadSize,
    /// A create by a node whose serials are all used.
    NamesSpent,
    /// A map or a delete of a name that no region has.
    Unknown,
    /// A map or a delete of a region that is being deleted, or was.
    Deleted,
    /// A call about a region that the node hasn't mapped.
    NotMapped,
    /// A start of a section beside one that is open at this node and excludes it.
    SectionOpen,
    /// The end of a read section where none is open at this node.
    NotReading,
    /// A change or the end of a write section where none is open at this node.
    NotWriting,
    /// An unmap or a flush of a region with a section open at this node.
    InSection,
    /// A change that reaches past the region's end.
    OutOfRange,
    /// A broadcast of no bytes, or of more than one may have.
    WrongSize,
    /// A map, or a read section, past the last that is counted.
    TooMany,
    /// A collective call to whose round the nodes brought parts that don't agree.
    Mixed,
}

impl Call {
    /// An equal value.
    ///
    /// # Errors
    ///
    /// `OutOfMemory`.
    pub fn copy(&self, alloc: Global) -> Result<Call, OutOfMemory>
        ensures { IfOk result (λ c. c ≡ self.now) }
    {
        Ok(match self {
            Call::Create { size } => Call::Create { size: *size },
            Call::Delete { name } => Call::Delete { name: *name },
            Call::Map { name } => Call::Map { name: *name },
            Call::Unmap { name } => Call::Unmap { name: *name },
            Call::StartRead { name } => Call::StartRead { name: *name },
            Call::EndRead { name } => Call::EndRead { name: *name },
            Call::StartWrite { name } => Call::StartWrite { name: *name },
            Call::EndWrite { name, after } => Call::EndWrite {
                name: *name,
                after: Bytes::copy_of(alloc, after.as_slice())?,
            },
            Call::Put { name, offset, len } => Call::Put {
                name: *name,
                offset: *offset,
                len: *len,
            },
            Call::Add { name, offset } => Call::Add {
                name: *name,
                offset: *offset,
            },
            Call::Flush { name } => Call::Flush { name: *name },
            Call::Come { part } => Call::Come {
                part: part.copy(alloc)?,
            },
        })
    }
}
