//! Tests: messages are posted in pieces, and taken out.
ghost use Rattle.std.specs.Prelude.{◌≡◌, ◌<◌, length};

use crate::{Cover, CoverKind, Mailbox, Paper, Sheets};
use crl_model::OutOfMemory;
use crl_model::bytes::Bytes;
use crl_model::message::{Granted, Kind, Message};
use crl_model::name::Name;
use crl_model::piece::Piece;
use std::alloc::Global;

fn part_of(piece: &Piece) -> &[u8] {
    match &piece.message.kind {
        Kind::Grant {
            granted: Granted::Exclusive(bytes),
            ..
        } => bytes.as_slice(),
        _ => &[],
    }
}

/// A grant of a region of this size, posted.
fn posted_grant(alloc: Global, size: u32) -> Result<Mailbox, OutOfMemory> {
    let bytes = Bytes::zeros(alloc, size as usize)?;
    let sheets = Sheets::new(alloc, size)?;
    let mut out = Mailbox::new(alloc);
    out.reserve(sheets.pieces() as usize)?;
    let cover = Cover {
        sender: 1,
        addressee: 2,
        kind: CoverKind::ExclusiveGrant,
        name: Name::new(1, 5),
        version: 9,
    };
    out.post_bytes(cover, bytes.as_slice(), sheets);
    Ok(out)
}

#[test]
fn a_grant_in_three_pieces(rt: HostRuntime) -> Result<(), OutOfMemory> {
    let mut out = posted_grant(rt.alloc(), 70_000)?;
    assert_eq!(rt; out.len(), 3);
    if 2 < out.len() {
        let last = out.take(2);
        assert_eq!(rt; last.pieces, 3);
        assert_eq!(rt; last.index, 2);
        assert_eq!(rt; last.message.addressee, 2);
        assert_eq!(rt; part_of(&last).len(), 4_464);
        assert_eq!(rt; part_of(out.piece(0)).len(), 32_768);
    }
    assert_eq!(rt; out.len(), 2);
    Ok(())
}

#[test]
fn a_message_without_bytes_is_one_piece(rt: HostRuntime) -> Result<(), OutOfMemory> {
    let mut out = Mailbox::new(rt.alloc());
    out.reserve(1)?;
    if 0 < out.room() {
        out.post(Message {
            sender: 0,
            addressee: 1,
            kind: Kind::Recall {
                name: Name::new(0, 1),
                version: 3,
            },
        });
    }
    assert_eq!(rt; out.len(), 1);
    if 0 < out.len() {
        assert_eq!(rt; out.piece(0).pieces, 1);
        assert_eq!(rt; out.piece(0).index, 0);
    }
    Ok(())
}

#[test]
fn paper_is_written_on(rt: HostRuntime) -> Result<(), OutOfMemory> {
    let paper = Paper::new(rt.alloc(), 3)?;
    let bytes = paper.write(&[1, 2]);
    assert_eq!(rt; bytes.as_slice(), [1, 2].as_slice());
    Ok(())
}
