//! A piece of the inbox in its place: what its message takes, and whether another piece of the message is missing.
ghost use Rattle.std.specs.Prelude.{◌≡◌, ◌<◌, Some, IfOk, MatchBool, length};
ghost use Rattle.crl_protocol.specs.Places.{take_out};
ghost use Rattle.crl_safety.specs.Safety.{IsSafe};
ghost use Rattle.crl_member.specs.Members.{node_after_handle, TakenIsSafe};
ghost use Rattle.crl_parcels.specs.ParcelKeys.{key_of_parcel};
ghost use Rattle.crl_desk.specs.Desks.{state, HasRoom};
ghost use Rattle.crl_node.specs.Handling.{piece_taken, IsReadyToTake, IsWholeTaken, JoinsWith, LeavesOpen, IsLast};
ghost use Rattle.crl_node.specs.Nodes.{IsNode, IsFew};

use crate::concluding::conclude;
use crate::gathering::{hear_piece, hear_whole, keep_piece, misses_another};
use crate::hearing::ready_to_hear;
use crate::kits::{HandleKit, PartKit};
use crl_desk::Desk;
use crl_model::OutOfMemory;
use crl_model::event::Event;
use crl_model::piece::Piece;
use crl_outbox::Mailbox;
use crl_parcels::ParcelKey;
use std::mem;

/// The piece at this place.
pub(crate) fn piece_at(inbox: &Mailbox, place: usize) -> &Piece
    requires { place < length inbox.now.list }
    ensures { Some result.now ≡ piece_taken (take_out place inbox.now.list) }
{
    inbox.piece(place)
}

/// What the message of the piece at this place takes. It stays there: the inbox is off the desk meanwhile.
pub(crate) fn ready_at(desk: &mut Desk, place: usize) -> Result<HandleKit, OutOfMemory>
    requires node { IsNode desk.old }
    requires there { place < length desk.old.inbox.list }
    requires piece { TakenIsSafe (state desk.old) (take_out place desk.old.inbox.list) }
    ensures state { state desk.new ≡ state desk.old }
    ensures kit { IfOk result (λ kit. IsReadyToTake (piece_taken (take_out place desk.new.inbox.list)) kit desk.new) }
    ensures node { IsNode desk.new }
{
    let inbox = mem::replace(&mut desk.inbox, Mailbox::new(desk.alloc));
    let message = &piece_at(&inbox, place).message;
    let kit = ready_to_hear(desk, message.sender, &message.kind);
    desk.inbox = inbox;
    kit
}

/// Whether a piece of the message is still missing once the one at this place has come.
pub(crate) fn leaves_open(desk: &Desk, place: usize, key: ParcelKey) -> bool
    requires there { place < length desk.now.inbox.list }
    ensures { let piece = piece_taken (take_out place desk.now.inbox.list) in
        MatchBool result (LeavesOpen (state desk.now) (key_of_parcel key) piece) (IsLast (state desk.now) (key_of_parcel key) piece) }
{
    let piece = piece_at(&desk.inbox, place);
    misses_another(&desk.parcels, key, piece.index, piece.pieces)
}
