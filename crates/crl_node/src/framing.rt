//! A piece goes in its frame: its sender encodes it, and its addressee has the bytes alone.
ghost use Rattle.std.specs.Prelude.{◌≡◌, ◌<◌, Ok, IfOk, length};
ghost use Rattle.crl_model.specs.declared.piece.Piece.{Piece};
ghost use Rattle.crl_protocol.specs.Places.{take_out};
ghost use Rattle.crl_member.specs.Members.{TakenIsInTable};
ghost use Rattle.crl_wire.specs.Decoding.{decoded};
ghost use Rattle.crl_node.specs.Framing.{IsSent, HasPiece};

use crl_model::OutOfMemory;
use crl_outbox::Mailbox;
use crl_wire::{Received, WireFault, encode, receive};
use std::alloc::Global;

/// What the sender sends: the frame of the piece at this place of its outbox.
///
/// # Errors
///
/// `OutOfMemory`.
pub(crate) fn send(alloc: Global, outbox: &Mailbox, place: usize) -> Result<Vec<u8>, OutOfMemory>
    requires there { place < length outbox.now.list }
    requires in_table { TakenIsInTable (take_out place outbox.now.list) }
    ensures { IfOk result (λ sent. IsSent sent.items (take_out place outbox.now.list)) }
{
    encode(alloc, outbox.piece(place))
}

/// What the addressee receives: the piece that it reads of the bytes that were sent.
///
/// # Errors
///
/// `OutOfMemory`.
#[tactic(auto, using(crate::proofs::Sending::only_memory, crate::proofs::Sending::reads_it))]
pub(crate) fn take_in(alloc: Global, sent: Vec<u8>) -> Result<Received, OutOfMemory>
    requires { HasPiece sent.items }
    ensures { (p : Piece) → decoded sent.items ≡ Ok p → IfOk result (λ came. came ≡ p) }
{
    match receive(alloc, sent) {
        Ok(came) => Ok(came),
        Err(WireFault::OutOfMemory) => Err(OutOfMemory),
        Err(WireFault::Short) => unreachable!(),
        Err(WireFault::Long) => unreachable!(),
        Err(WireFault::BadKind) => unreachable!(),
        Err(WireFault::BadField) => unreachable!(),
    }
}
