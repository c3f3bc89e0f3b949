//! Pieces of a region's bytes: their frames, and how they are gathered.

use crate::frames::{fails, grant, has_frame, piece};
use crl_model::OutOfMemory;
use crl_model::bytes::Bytes;
use crl_model::message::{Granted, Kind, Message};
use crl_model::name::Name;
use crl_model::piece::Piece;
use crl_pieces::gather::Gather;
use crl_pieces::parts::{count, cut};
use crl_pieces::{PIECE_LEN, PIECES_LIMIT};
use crl_wire::{WireFault, decode, encode_into, frame_len, is_in_table};
use std::alloc::Global;
use std::process::Abort;
use std::test::Fail;

fn from_home(kind: Kind) -> Message {
    Message {
        sender: 0,
        addressee: 1,
        kind,
    }
}

/// An exclusive grant with these bytes.
fn granted(alloc: Global, bytes: &[u8]) -> Result<Message, OutOfMemory> {
    let bytes = Bytes::copy_of(alloc, bytes)?;
    let kind = grant(Name::new(0, 1), 1, Granted::Exclusive(bytes));
    Ok(from_home(kind))
}

#[test]
fn last_pieces_have_their_frames(rt: HostRuntime) -> Result<(), Fail> {
    let alloc = rt.alloc();
    let second = piece(granted(alloc, b"\0")?, 2, 1);
    has_frame(
        &rt,
        alloc,
        &second,
        "040100000001000100000000000000010000000000000001000000010000000100",
    )?;
    let last = piece(granted(alloc, b"\x05\x06")?, 512, 511);
    has_frame(
        &rt,
        alloc,
        &last,
        "04010000000101ff0000000000000001000000000000000100000002000001ff0506",
    )
}

/// Headers with a bad place: an index past the last; a first piece of 32,767 and of 32,769 bytes; a last
/// one of no byte and of 32,769; a piece of 513; an upgrade, a return without bytes and a broadcast in
/// two pieces; a return without bytes of index 1.
const BAD_PLACES: [&str; 10] = [
    "0401000000010001000000000000000100000000000000010000000100000002",
    "04010000000100010000000000000001000000000000000100007fff00000000",
    "0401000000010001000000000000000100000000000000010000800100000000",
    "0401000000010001000000000000000100000000000000010000000000000001",
    "0401000000010001000000000000000100000000000000010000800100000001",
    "0401000000010200000000000000000100000000000000010000000100000200",
    "0402000000010001000000000000000100000000000000010000000000000000",
    "0600000100000001000000000000000100000000000000040000000000000000",
    "0b01000100000001000000000000000000000000000000010000000200000000",
    "0600000100000000000000000000000100000000000000040000000000000001",
];

#[test]
fn bad_places_are_refused(rt: HostRuntime) -> Result<(), Fail> {
    let text = "040100000001000100000000000000010000000000000001000000010000000200";
    let bytes = hex::decode(rt.alloc(), text.as_bytes())?;
    fails(&rt, rt.alloc(), bytes.as_slice(), WireFault::BadField);
    for text in BAD_PLACES {
        let bytes = hex::decode(rt.alloc(), text.as_bytes())?;
        fails(&rt, rt.alloc(), bytes.as_slice(), WireFault::BadField);
    }
    Ok(())
}

#[test]
fn pieces_outside_the_table(rt: HostRuntime) -> Result<(), Fail> {
    let alloc = rt.alloc();
    let name = Name::new(0, 1);
    let large = vec![in alloc; 0u8; 32_769]?;
    let pieces = vec![in alloc;
        piece(granted(alloc, b"\0")?, 0, 0),
        piece(granted(alloc, b"\0")?, 1, 1),
        piece(granted(alloc, b"\0")?, 2, 0),
        piece(granted(alloc, b"\0")?, 2, 2),
        piece(granted(alloc, b"\0")?, 513, 512),
        piece(granted(alloc, b"\0")?, 65_537, 0),
        piece(granted(alloc, large.as_slice())?, 1, 0),
        piece(granted(alloc, large.as_slice())?, 2, 0),
        piece(granted(alloc, b"")?, 2, 1),
        piece(from_home(Kind::Purge { name }), 0, 0),
        piece(from_home(Kind::Purge { name }), 2, 0),
        piece(from_home(Kind::Purge { name }), 1, 1),
    ]?;
    for sent in &pieces {
        assert!(rt; !is_in_table(sent));
    }
    Ok(())
}

/// Bytes of which no two pieces are equal.
fn bytes_of(alloc: Global, len: usize) -> Result<Vec<u8>, OutOfMemory> {
    let mut bytes = Vec::new(alloc);
    for i in 0..len {
        bytes.push((i % 251) as u8)?;
    }
    Ok(bytes)
}

/// The piece as it comes out of its frame.
fn sent_piece(rt: &impl Abort, alloc: Global, sent: &Piece) -> Result<Piece, Fail> {
    assert!(rt; is_in_table(sent));
    let mut out = Vec::with_capacity(alloc, frame_len(sent))?;
    encode_into(sent, &mut out);
    Ok(decode(alloc, out.as_slice())?)
}

/// Adds a piece, which is asserted to be missing and to have its length. Whether it was the last.
fn add(rt: &impl Abort, gather: &mut Gather, index: u32, part: &[u8]) -> bool {
    assert!(rt; index < PIECES_LIMIT);
    let start = index * PIECE_LEN;
    assert!(rt; start <= gather.size());
    let rest = (gather.size() - start).min(PIECE_LEN);
    assert_eq!(rt; part.len(), rest as usize);
    assert!(rt; gather.is_missing(index));
    gather.add(index, part)
}

/// The bytes of an exclusive grant.
fn granted_bytes(message: &Message) -> &[u8] {
    match &message.kind {
        Kind::Grant {
            granted: Granted::Exclusive(bytes),
            ..
        } => bytes.as_slice(),
        _ => &[],
    }
}

/// Asserts that the bytes are those that their pieces, sent in this order, are gathered to.
fn are_gathered(rt: &impl Abort, alloc: Global, bytes: &[u8], order: &[u32]) -> Result<(), Fail> {
    assert!(rt; bytes.len() <= 16_777_216);
    let size = bytes.len() as u32;
    let pieces = count(size);
    assert_eq!(rt; order.len(), pieces as usize);
    let mut gather = Gather::new(alloc, size)?;
    for (i, index) in order.iter().enumerate() {
        assert!(rt; *index < count(size));
        assert!(rt; !gather.is_complete());
        let part = cut(bytes, *index);
        let sent = piece(granted(alloc, part)?, pieces, *index);
        let came = sent_piece(rt, alloc, &sent)?;
        assert!(rt; came == sent);
        let last = add(rt, &mut gather, *index, granted_bytes(&came.message));
        assert_eq!(rt; last, i + 1 == order.len());
        assert!(rt; !gather.is_missing(*index));
    }
    assert!(rt; gather.is_complete());
    let mut whole = vec![in alloc; 0u8; gather.size() as usize]?;
    gather.copy_to(whole.as_mut_slice());
    assert!(rt; whole.as_slice() == bytes);
    let owned = gather.into_whole();
    assert!(rt; owned.as_slice() == bytes);
    Ok(())
}

#[test]
fn a_piece_is_there_once_it_came(rt: HostRuntime) -> Result<(), Fail> {
    let mut gather = Gather::new(rt.alloc(), 32_769)?;
    assert!(rt; !gather.has(0));
    assert!(rt; !gather.has(1));
    let last = gather.add(1, b"\x05");
    assert!(rt; !last);
    assert!(rt; !gather.has(0));
    assert!(rt; gather.has(1));
    Ok(())
}

#[test]
fn pieces_come_in_any_order(rt: HostRuntime) -> Result<(), Fail> {
    let cases: [(usize, &[u32]); 9] = [
        (1, &[0]),
        (32_767, &[0]),
        (32_768, &[0]),
        (32_769, &[0, 1]),
        (32_769, &[1, 0]),
        (65_536, &[1, 0]),
        (65_537, &[0, 1, 2]),
        (65_537, &[2, 0, 1]),
        (100_000, &[1, 3, 0, 2]),
    ];
    for (len, order) in cases {
        let bytes = bytes_of(rt.alloc(), len)?;
        are_gathered(&rt, rt.alloc(), bytes.as_slice(), order)?;
    }
    Ok(())
}

#[test]
fn numbers_of_pieces(rt: HostRuntime) -> Result<(), Fail> {
    let cases = [
        (0, 1),
        (1, 1),
        (32_768, 1),
        (32_769, 2),
        (16_744_448, 511),
        (16_744_449, 512),
        (16_777_216, 512),
        (u32::MAX, 131_072),
    ];
    for (size, pieces) in cases {
        assert_eq!(rt; count(size), pieces);
    }
    assert_eq!(rt; PIECES_LIMIT, 512);
    Ok(())
}
