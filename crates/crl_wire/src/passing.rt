//! A piece goes in its frame: its sender encodes it, and its addressee has the bytes alone.
ghost use Rattle.std.specs.Prelude.{◌≡◌, Ok, IfOk, MatchResult};
ghost use Rattle.crl_model.specs.declared.piece.Piece.{Piece};
ghost use Rattle.crl_wire.specs.Frame.{frame, IsInTable};
ghost use Rattle.crl_wire.specs.Decoding.{decoded, Gives};

use crate::fault::WireFault;
use crate::reading::decode;
use crate::received::Received;
use crate::writing::{encode_into, frame_len};
use crl_model::OutOfMemory;
use crl_model::piece::Piece;
use std::alloc::Global;

/// The frame of the piece, which is one of the table: what its sender sends.
///
/// # Errors
///
/// `OutOfMemory`.
pub fn encode(alloc: Global, piece: &Piece) -> Result<Vec<u8>, OutOfMemory>
    requires { IsInTable piece.now }
    ensures frame { IfOk result (λ sent. sent.items ≡ frame piece.now) }
    // What is sent is read again.
    ensures again { IfOk result (λ sent. decoded sent.items ≡ Ok piece.now) }
{
    let mut sent = Vec::with_capacity(alloc, frame_len(piece))?;
    encode_into(piece, &mut sent);
    Ok(sent)
}

/// The piece whose frame the bytes are, all of them: what its addressee receives.
///
/// # Errors
///
/// Those of `decode`.
pub fn receive(alloc: Global, frame: Vec<u8>) -> Result<Received, WireFault>
    // Which answer it is.
    ensures exact { Gives result (decoded frame.items) }
    // The frame of a piece is refused only for memory.
    ensures only { (p : Piece) → decoded frame.items ≡ Ok p
        → MatchResult result (λ came. came ≡ p) (λ fault. fault ≡ WireFault.OutOfMemory) }
{
    let piece = decode(alloc, frame.as_slice())?;
    Ok(Received { piece, frame })
}
