//! What a call takes, and a message that comes.
use crl_desk::SectionKit;
use crl_home::Home;
use crl_meeting::{Papers, RoundKit};
use crl_model::call::Refusal;
use crl_model::collective::Part;
use crl_outbox::{Paper, Sheets};
use crl_parcels::ParcelKey;
use crl_pieces::gather::Gather;

/// What was readied for a call: that it is refused, and why, or what it takes.
#[derive(Drop)]
pub enum CallKit {
    Refused(Refusal),
    Taken(TakenKit),
}

/// What was readied for a call that isn't refused: nothing but room, the table of a new region, sheets for bytes that may go
/// back, what a section takes that may open, or the part of a round as it is to be noted, with what the round takes.
#[derive(Drop)]
pub enum TakenKit {
    Room,
    Create(Home),
    Sheets(Sheets),
    Section(SectionKit),
    Come { noted: Part, kit: RoundKit },
}

/// What was readied for a message: nothing but room, what a section takes that may open, sheets for bytes that may go back,
/// papers for what the nodes of a round are told, or paper for what this one is told.
#[derive(Drop)]
pub enum HandleKit {
    Room,
    Section(SectionKit),
    Sheets(Sheets),
    Papers(Papers),
    Paper(Paper),
}

/// What was readied for a piece: what its message takes, if it is heard with this piece, and what the piece takes itself, if
/// its message is gathered.
#[derive(Drop)]
pub enum PieceKit {
    /// The piece is a whole message.
    Whole(HandleKit),
    /// It is the last missing one of a message that is gathered.
    Last { part: PartKit, message: HandleKit },
    /// Another piece of its message is missing too.
    More(PartKit),
}

/// The key of the message, its size, and the blank for its bytes, if this is the first piece.
#[derive(Drop)]
pub struct PartKit {
    pub(crate) key: ParcelKey,
    pub(crate) size: u32,
    pub(crate) blank: Option<Gather>,
}
