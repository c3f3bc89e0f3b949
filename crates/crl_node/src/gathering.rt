//! A piece of a message with bytes of a region. With the last missing one its message is heard.
ghost use Rattle.std.specs.Prelude.{◌≡◌, ℕ, Some, None, false, IfOk, OnOk, MatchBool};
ghost use Rattle.crl_pieces.specs.Pieces.{is_complete};
ghost use Rattle.crl_protocol.specs.Parcels.{load_of, slots_or};
ghost use Rattle.crl_protocol.specs.Receiving.{receives, size_for, home_size, slots_with};
ghost use Rattle.crl_protocol.specs.Node.{home_of};
ghost use Rattle.crl_safety.specs.Safety.{IsSafe, PieceIsSafe};
ghost use Rattle.crl_parcels.specs.ParcelKeys.{key_of_parcel, load_named};
ghost use Rattle.crl_parcels.specs.ParcelsState.{parcels_of, sizes_of};
ghost use Rattle.crl_parcels.specs.PieceComes.{IsReadyFor, IsOfSize};
ghost use Rattle.crl_desk.specs.Desks.{state, acted, HasRoom};
ghost use Rattle.crl_node.specs.Handling.{IsReadyToHear, IsWhole, JoinsWith, MissesAnother, MissesNoOther};

use crate::hearing::hear;
use crate::kits::{HandleKit, PartKit};
use crl_desk::Desk;
use crl_model::OutOfMemory;
use crl_model::message::{Granted, Kind, Message};
use crl_model::name::Name;
use crl_model::piece::Piece;
use crl_parcels::{LoadKind, ParcelKey, Parcels, with_load};
use crl_pieces::gather::Gather;
use std::alloc::Global;

/// The size that the node knows of the region: that of its own side for a grant, else that of its home.
pub(crate) fn known_size(desk: &Desk, load: LoadKind, name: Name) -> Option<u32>
    ensures { result ≡ size_for (load_named load) name (state desk.now) }
{
    match load {
        LoadKind::Grant => desk.remotes.size(name),
        LoadKind::Return => size_as_home(desk, name),
        LoadKind::Release => size_as_home(desk, name),
    }
}

/// The size of the node's own region, if it is one and is there.
fn size_as_home(desk: &Desk, name: Name) -> Option<u32>
    ensures { result ≡ home_size (home_of (state desk.now) name) }
{
    if name.home != desk.me {
        return None;
    }
    desk.homes.size(name)
}

/// The bytes of a region that the message carries: none if it is of a kind without them.
fn bytes_of(kind: &Kind) -> &[u8]
    ensures { result.now ≡ load_of kind.now }
{
    match kind {
        Kind::Grant {
            granted: Granted::Shared(bytes) | Granted::Exclusive(bytes),
            ..
        } => bytes.as_slice(),
        Kind::Return {
            bytes: Some(bytes),
            ..
        } => bytes.as_slice(),
        Kind::Release { bytes, .. } => bytes.as_slice(),
        _ => &[],
    }
}

/// What a piece takes of a message of so many bytes: the blank for them, if it is the first.
///
/// # Errors
///
/// `OutOfMemory`, also if pieces of this key came that are of a message of another size. In a run none did.
pub(crate) fn ready_parcel(
    parcels: &mut Parcels,
    alloc: Global,
    key: ParcelKey,
    size: u32,
) -> Result<Option<Gather>, OutOfMemory>
    ensures same { parcels_of parcels.new ≡ parcels_of parcels.old }
    ensures size { OnOk result (IsOfSize size (sizes_of parcels.new (key_of_parcel key))) }
    ensures blank { IfOk result (λ blank. IsReadyFor size (parcels_of parcels.new (key_of_parcel key)) blank parcels.new.room) }
{
    match parcels.size_of(key) {
        Some(known) => ready_next(parcels, key, known, size),
        None => ready_first(parcels, alloc, key, size),
    }
}

/// The same if pieces of the key came, of a message of `known` bytes.
fn ready_next(
    parcels: &Parcels,
    key: ParcelKey,
    known: u32,
    size: u32,
) -> Result<Option<Gather>, OutOfMemory>
    requires known { sizes_of parcels.now (key_of_parcel key) ≡ Some known }
    ensures size { OnOk result (IsOfSize size (sizes_of parcels.now (key_of_parcel key))) }
    ensures blank { IfOk result (λ blank. IsReadyFor size (parcels_of parcels.now (key_of_parcel key)) blank parcels.now.room) }
{
    if known != size {
        return Err(OutOfMemory);
    }
    Ok(None)
}

/// The same if none came.
fn ready_first(
    parcels: &mut Parcels,
    alloc: Global,
    key: ParcelKey,
    size: u32,
) -> Result<Option<Gather>, OutOfMemory>
    requires none { sizes_of parcels.old (key_of_parcel key) ≡ None }
    ensures same { parcels_of parcels.new ≡ parcels_of parcels.old }
    ensures size { OnOk result (IsOfSize size (sizes_of parcels.new (key_of_parcel key))) }
    ensures blank { IfOk result (λ blank. IsReadyFor size (parcels_of parcels.new (key_of_parcel key)) blank parcels.new.room) }
{
    let blank = Gather::new(alloc, size)?;
    parcels.ready()?;
    Ok(Some(blank))
}

/// Whether a piece below this number, other than this one, is missing of the message with this key.
pub(crate) fn misses_another(parcels: &Parcels, key: ParcelKey, index: u32, number: u32) -> bool
    ensures { let slots = slots_or number (parcels_of parcels.now (key_of_parcel key)) in
        MatchBool result (MissesAnother index number slots) (MissesNoOther index number slots) }
{
    for other in 0..number {
        if other != index && parcels.is_missing(key, other, number) {
            return true;
        }
    }
    false
}

/// The piece is a whole message. It comes.
pub(crate) fn hear_whole(desk: &mut Desk, at: u64, piece: Piece, kit: HandleKit)
    requires safe { IsSafe (state desk.old) }
    requires piece { PieceIsSafe (state desk.old) piece }
    requires whole { IsWhole (state desk.old) piece }
    requires ready { IsReadyToHear piece.message.sender piece.message.kind kit desk.old }
    ensures state { state desk.new ≡ acted at (receives piece (state desk.old)) }
    ensures room { HasRoom 0 0 1 desk.new }
{
    let Piece { message, .. } = piece;
    let Message { sender, kind, .. } = message;
    hear(desk, at, sender, kind, kit);
}

/// The piece comes of a message that is gathered.
pub(crate) fn hear_piece(desk: &mut Desk, at: u64, piece: Piece, part: PartKit, kit: HandleKit)
    requires safe { IsSafe (state desk.old) }
    requires piece { PieceIsSafe (state desk.old) piece }
    requires joins { JoinsWith (Some piece) part desk.old }
    requires ready { IsReadyToHear piece.message.sender piece.message.kind kit desk.old }
    ensures state { state desk.new ≡ acted at (receives piece (state desk.old)) }
    ensures room { HasRoom 0 0 1 desk.new }
{
    let Piece { message, index, .. } = piece;
    let PartKit { key, size, blank } = part;
    let Message { sender, kind, .. } = message;
    match desk.parcels.add(key, index, bytes_of(&kind), size, blank) {
        Some(bytes) => hear(desk, at, sender, with_load(kind, bytes), kit),
        None => {}
    }
}

/// The piece comes of a message that is gathered, of which another one is still missing.
pub(crate) fn keep_piece(desk: &mut Desk, piece: Piece, part: PartKit)
    requires room { HasRoom 0 0 1 desk.old }
    requires piece { PieceIsSafe (state desk.old) piece }
    requires joins { JoinsWith (Some piece) part desk.old }
    requires open { is_complete (slots_with piece ((state desk.old).parcels (key_of_parcel part.key))) ≡ false }
    ensures state { (at : ℕ) → state desk.new ≡ acted at (receives piece (state desk.old)) }
    ensures room { HasRoom 0 0 1 desk.new }
{
    let Piece { message, index, .. } = piece;
    let PartKit { key, size, blank } = part;
    let _ = desk
        .parcels
        .add(key, index, bytes_of(&message.kind), size, blank);
}
