//! Reading frames.
ghost use Rattle.std.specs.Prelude.{◌≡◌, ◌≢◌, ◌⊎◌, ◌^◌, ◌<◌, true, Err, length, take, slice_index, IfOk, MatchResult};
ghost use Rattle.crl_model.specs.declared.piece.Piece.{Piece};
ghost use Rattle.crl_wire.specs.Table as table;
ghost use Rattle.crl_wire.specs.Frame.{frame, layout, header_of, Fits};
ghost use Rattle.crl_wire.specs.Decoding as decoding;
ghost use Rattle.crl_wire.specs.Decoding.{decoded, with_header, with_body, name_in, Gives, BeginsFrame, ExceedsFrame};

use crate::build::kind_from;
use crate::fault::WireFault;
use crate::form::Form;
use crate::header::{HEADER_LEN, Header, read_header};
use crate::table::form_in;
use crl_model::NodeNo;
use crl_model::message::Message;
use crl_model::name::Name;
use crl_model::piece::Piece;
use std::alloc::Global;

/// The largest number of a kind.
const LAST_KIND: u8 = 14;

fn is_kind(kind: u8) -> bool
    ensures { result ≡ table.is_kind kind }
{
    kind >= 1 && kind <= LAST_KIND
}

fn name_in(header: &Header) -> Name
    requires { header.now.home < 2 ^ 16 }
    ensures { result ≡ name_in header.now }
{
    Name::new(header.home as NodeNo, header.serial)
}

/// The piece of a header, which has this form, and of what stands behind it.
#[tactic(auto, unfolding(crate::specs::Decoding::with_body))]
fn with_body(alloc: Global, header: &Header, form: Form, body: &[u8]) -> Result<Piece, WireFault>
    requires { table.is_shaped (table.shape_of form) header.now ≡ true }
    ensures { Gives result (with_body header.now form body.now) }
{
    let len = header.body_len as usize;
    if body.len() < len {
        return Err(WireFault::Short);
    }
    if body.len() > len {
        return Err(WireFault::Long);
    }
    let message = Message {
        sender: header.sender,
        addressee: header.addressee,
        kind: kind_from(alloc, form, name_in(header), header.number, body)?,
    };
    Ok(Piece {
        message,
        pieces: header.last_index as u32 + 1,
        index: header.index,
    })
}

/// The piece of a header and of what stands behind it.
#[tactic(auto, unfolding(crate::specs::Decoding::with_header, crate::specs::Decoding::with_form))]
fn with_header(alloc: Global, header: &Header, body: &[u8]) -> Result<Piece, WireFault>
    ensures { Gives result (with_header header.now body.now) }
{
    if !is_kind(header.kind) {
        return Err(WireFault::BadKind);
    }
    match form_in(header) {
        Some(form) => with_body(alloc, header, form, body),
        None => Err(WireFault::BadField),
    }
}

/// The piece of the bytes.
#[tactic(auto, unfolding(crate::specs::Decoding::decoded))]
fn piece_of(alloc: Global, bytes: &[u8]) -> Result<Piece, WireFault>
    ensures { Gives result (decoded bytes.now) }
{
    if bytes.len() < HEADER_LEN {
        return Err(WireFault::Short);
    }
    let header = read_header(bytes);
    with_header(alloc, &header, &bytes[HEADER_LEN..])
}

/// The piece whose frame the bytes are, all of them.
///
/// # Errors
///
/// `Short`, `BadKind`, `BadField`, `Short` and `Long`: the first whose test holds, in the order of
/// `decoded`. `OutOfMemory`.
pub fn decode(alloc: Global, bytes: &[u8]) -> Result<Piece, WireFault>
    // Which answer it is.
    ensures exact { Gives result (decoded bytes.now) }
    // What is read is a piece of the table, and the bytes are its frame.
    ensures found { IfOk result (λ p. Fits p × (bytes.now ≡ frame p)) }
    // The frame of a piece is read as that piece, and refused only for memory.
    ensures only { (p : Piece) → Fits p → bytes.now ≡ frame p
        → MatchResult result (λ read. read ≡ p) (λ fault. fault ≡ WireFault.OutOfMemory) }
    // What the faults mean. A bad field is one that no piece has.
    ensures short { result ≡ Err WireFault.Short → (length bytes.now < 32) ⊎ BeginsFrame bytes.now }
    ensures long { result ≡ Err WireFault.Long → ExceedsFrame bytes.now }
    ensures bad_kind { result ≡ Err WireFault.BadKind → (slice_index bytes.now 0 ≡ 0) ⊎ (14 < slice_index bytes.now 0) }
    ensures bad_field { result ≡ Err WireFault.BadField → (p : Piece) → Fits p → take 32 bytes.now ≢ layout (header_of p) }
{
    piece_of(alloc, bytes)
}
