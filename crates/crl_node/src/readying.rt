//! The two halves of handling a piece: what it takes is made ready, and then it is handled.
ghost use Rattle.std.specs.Prelude.{◌≡◌, ◌<◌, Some, IfOk, length};
ghost use Rattle.crl_protocol.specs.Places.{take_out};
ghost use Rattle.crl_protocol.specs.Receiving.{receives, size_for};
ghost use Rattle.crl_safety.specs.Safety.{IsSafe, PieceIsSafe};
ghost use Rattle.crl_member.specs.Members.{node_after_handle, TakenIsSafe};
ghost use Rattle.crl_parcels.specs.ParcelKeys.{key_of_parcel, load_named};
ghost use Rattle.crl_desk.specs.Desks.{state, acted, HasRoom};
ghost use Rattle.crl_node.specs.Handling.{piece_taken, key_taken, IsPieceReady, IsWholeTaken};
ghost use Rattle.crl_node.specs.Nodes.{IsNode};

use crate::concluding::conclude;
use crate::gathering::{hear_piece, hear_whole, keep_piece, known_size, ready_parcel};
use crate::handling::{leaves_open, piece_at, ready_at};
use crate::kits::{PartKit, PieceKit};
use crl_desk::Desk;
use crl_model::OutOfMemory;
use crl_model::event::Event;
use crl_model::piece::Piece;
use crl_parcels::{ParcelKey, key_of_message};
use crl_pieces::parts::count;

/// Makes ready what the piece at this place of the inbox takes.
///
/// # Errors
///
/// `OutOfMemory`.
pub(crate) fn ready_piece(desk: &mut Desk, place: usize) -> Result<PieceKit, OutOfMemory>
    requires node { IsNode desk.old }
    requires there { place < length desk.old.inbox.list }
    requires piece { TakenIsSafe (state desk.old) (take_out place desk.old.inbox.list) }
    ensures state { state desk.new ≡ state desk.old }
    ensures kit { IfOk result (λ kit. IsPieceReady (piece_taken (take_out place desk.new.inbox.list)) kit desk.new) }
    ensures node { IsNode desk.new }
{
    match key_of_message(&piece_at(&desk.inbox, place).message) {
        Some(key) => ready_part(desk, place, key),
        None => ready_whole(desk, place),
    }
}

/// The piece is a whole message.
fn ready_whole(desk: &mut Desk, place: usize) -> Result<PieceKit, OutOfMemory>
    requires node { IsNode desk.old }
    requires there { place < length desk.old.inbox.list }
    requires piece { TakenIsSafe (state desk.old) (take_out place desk.old.inbox.list) }
    requires whole { IsWholeTaken (state desk.old) (piece_taken (take_out place desk.old.inbox.list)) }
    ensures state { state desk.new ≡ state desk.old }
    ensures kit { IfOk result (λ kit. IsPieceReady (piece_taken (take_out place desk.new.inbox.list)) kit desk.new) }
    ensures node { IsNode desk.new }
{
    let message = ready_at(desk, place)?;
    Ok(PieceKit::Whole(message))
}

/// The piece is one of a message with bytes of a region, which has this key. In a run the node knows the size. If the bytes
/// are one piece it is the whole message.
fn ready_part(desk: &mut Desk, place: usize, key: ParcelKey) -> Result<PieceKit, OutOfMemory>
    requires node { IsNode desk.old }
    requires there { place < length desk.old.inbox.list }
    requires piece { TakenIsSafe (state desk.old) (take_out place desk.old.inbox.list) }
    requires key { key_taken (piece_taken (take_out place desk.old.inbox.list)) ≡ Some (key_of_parcel key) }
    ensures state { state desk.new ≡ state desk.old }
    ensures kit { IfOk result (λ kit. IsPieceReady (piece_taken (take_out place desk.new.inbox.list)) kit desk.new) }
    ensures node { IsNode desk.new }
{
    let Some(size) = known_size(desk, key.load, key.name) else {
        return Err(OutOfMemory);
    };
    if count(size) == 1 && !desk.parcels.has(key) {
        return ready_whole(desk, place);
    }
    ready_gathered(desk, place, key, size)
}

/// The piece is one of a message of so many bytes, which is gathered. Only the last missing one needs what the message takes.
fn ready_gathered(
    desk: &mut Desk,
    place: usize,
    key: ParcelKey,
    size: u32,
) -> Result<PieceKit, OutOfMemory>
    requires node { IsNode desk.old }
    requires there { place < length desk.old.inbox.list }
    requires piece { TakenIsSafe (state desk.old) (take_out place desk.old.inbox.list) }
    requires key { key_taken (piece_taken (take_out place desk.old.inbox.list)) ≡ Some (key_of_parcel key) }
    requires known { size_for (load_named key.load) key.name (state desk.old) ≡ Some size }
    ensures state { state desk.new ≡ state desk.old }
    ensures kit { IfOk result (λ kit. IsPieceReady (piece_taken (take_out place desk.new.inbox.list)) kit desk.new) }
    ensures node { IsNode desk.new }
{
    if leaves_open(desk, place, key) {
        desk.make_room(0, 0, 1)?;
        let blank = ready_parcel(&mut desk.parcels, desk.alloc, key, size)?;
        return Ok(PieceKit::More(PartKit { key, size, blank }));
    }
    let message = ready_at(desk, place)?;
    let blank = ready_parcel(&mut desk.parcels, desk.alloc, key, size)?;
    Ok(PieceKit::Last {
        part: PartKit { key, size, blank },
        message,
    })
}

/// Handles the piece at this place of the inbox, which was made ready.
pub(crate) fn make_handle(desk: &mut Desk, at: u64, place: usize, kit: PieceKit)
    requires node { IsNode desk.old }
    requires safe { IsSafe (state desk.old) }
    requires there { place < length desk.old.inbox.list }
    requires piece { TakenIsSafe (state desk.old) (take_out place desk.old.inbox.list) }
    requires ready { IsPieceReady (piece_taken (take_out place desk.old.inbox.list)) kit desk.old }
    ensures state { state desk.new ≡ node_after_handle at place (state desk.old) }
    ensures node { IsNode desk.new }
{
    let before = desk.outbox.len();
    let node = desk.me;
    let piece = desk.inbox.take(place);
    receive(desk, at, piece, kit);
    conclude(desk, at, Event::Handle { node, place }, before);
}

/// The piece comes, out of the inbox.
fn receive(desk: &mut Desk, at: u64, piece: Piece, kit: PieceKit)
    requires safe { IsSafe (state desk.old) }
    requires piece { PieceIsSafe (state desk.old) piece }
    requires ready { IsPieceReady (Some piece) kit desk.old }
    ensures state { state desk.new ≡ acted at (receives piece (state desk.old)) }
    ensures room { HasRoom 0 0 1 desk.new }
{
    match kit {
        PieceKit::Whole(message) => hear_whole(desk, at, piece, message),
        PieceKit::Last { part, message } => hear_piece(desk, at, piece, part, message),
        PieceKit::More(part) => keep_piece(desk, piece, part),
    }
}
