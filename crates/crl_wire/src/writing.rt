//! Writing frames.
ghost use Rattle.std.specs.Prelude.{◌≡◌, ◌+◌, ◌<◌, ◌≤◌, ◌^◌, ◌++◌, ◌↔◌, Ok, IsTrue, length, vec_len, vec_capacity};
ghost use Rattle.crl_wire.specs.Frame.{frame, body_of, IsInTable};
ghost use Rattle.crl_pieces.specs.declared.TheConstants.{PIECES_LIMIT};
ghost use Rattle.crl_wire.specs.Frame as frames;
ghost use Rattle.crl_wire.specs.Decoding.{decoded};

use crate::body::{body_len, put_body};
use crate::header::{HEADER_LEN, Header, put_header};
use crate::kind::{form_of, name_of, number_of};
use crate::rule::is_shaped;
use crate::table::shape_of;
use crl_model::piece::Piece;
use crl_pieces::PIECES_LIMIT;

/// The most bytes of a body that a header can say.
const MOST_BODY: usize = 0xffff_ffff;

/// The header of the piece, of up to 512 pieces, whose body has fewer than 2^32 bytes.
fn header_of(piece: &Piece) -> Header
    requires pieces { (1 ≤ piece.now.pieces) × (piece.now.pieces ≤ PIECES_LIMIT) }
    requires body { length (body_of piece.now.message.kind) < 2 ^ 32 }
    ensures { result ≡ frames.header_of piece.now }
{
    let message = &piece.message;
    let shape = shape_of(form_of(&message.kind));
    let name = name_of(&message.kind);
    Header {
        kind: shape.kind,
        flag: shape.flag,
        sender: message.sender,
        addressee: message.addressee,
        last_index: (piece.pieces - 1) as u16,
        home: name.home as u32,
        serial: name.serial,
        number: number_of(&message.kind),
        body_len: body_len(&message.kind) as u32,
        index: piece.index,
    }
}

/// Whether the piece is one of the table: its ends are two nodes, the name in it has a serial and is of
/// the right home, its number and its body are as its kind allows, and it has a place among up to 512
/// pieces, or is the only piece where it has no bytes of a region. Each piece of the table has a frame.
#[tactic(auto, using(crate::proofs::FrameLemmas::in_bounds))]
pub fn is_in_table(piece: &Piece) -> bool
    ensures { IsTrue result ↔ IsInTable piece.now }
{
    let kind = &piece.message.kind;
    piece.pieces >= 1
        && piece.pieces <= PIECES_LIMIT
        && body_len(kind) <= MOST_BODY
        && is_shaped(shape_of(form_of(kind)), &header_of(piece))
}

/// The number of bytes of the piece's frame.
#[tactic(auto, unfolding(crate::specs::Frame::frame, crate::specs::Frame::layout))]
pub fn frame_len(piece: &Piece) -> usize
    ensures { result ≡ length (frame piece.now) }
{
    HEADER_LEN + body_len(&piece.message.kind)
}

/// Puts the frame of the piece, which is one of the table, at the end of `out`, which has spare capacity
/// for it. This takes no memory.
#[tactic(auto, unfolding(crate::specs::Frame::frame))]
pub fn encode_into(piece: &Piece, out: &mut Vec<u8>)
    requires room { vec_len out.old + length (frame piece.now) ≤ vec_capacity out.old }
    requires in_table { IsInTable piece.now }
    ensures appends { out.new.items ≡ out.old.items ++ frame piece.now }
    // What was written is read again.
    ensures again { decoded (frame piece.now) ≡ Ok piece.now }
    ensures capacity { vec_capacity out.old ≤ vec_capacity out.new }
{
    put_header(&header_of(piece), out);
    put_body(&piece.message.kind, out);
}
