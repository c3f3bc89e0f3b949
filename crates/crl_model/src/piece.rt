//! The pieces that messages travel in.
ghost use Rattle.std.specs.Prelude.{◌≡◌, IfOk};

use crate::OutOfMemory;
use crate::message::Message;
use std::alloc::Global;

/// One piece of a message: the message with this piece's part of the bytes, the number of pieces, and
/// the place of this one among them, from 0. A message without bytes of a region is one piece, of number
/// 1 and index 0.
#[derive(Debug, Drop, PartialEq)]
pub struct Piece {
    pub message: Message,
    pub pieces: u32,
    pub index: u32,
}

impl Piece {
    /// An equal value.
    ///
    /// # Errors
    ///
    /// `OutOfMemory`.
    pub fn copy(&self, alloc: Global) -> Result<Piece, OutOfMemory>
        ensures { IfOk result (λ p. p ≡ self.now) }
    {
        Ok(Piece {
            message: self.message.copy(alloc)?,
            pieces: self.pieces,
            index: self.index,
        })
    }
}
