//! Frames of messages, in hexadecimal. A header is kind and flag in a byte each; sender, addressee and the
//! number of pieces minus 1 in two each; home and serial of the name in four each; the number in eight; the
//! body's length and the piece's index in four each.

use crl_model::bytes::Bytes;
use crl_model::collective::{Fold, Part};
use crl_model::message::{DeleteTold, Granted, Kind, Message, Told};
use crl_model::name::Name;
use crl_model::piece::Piece;
use crl_model::{NodeNo, OutOfMemory};
use crl_wire::{WireFault, decode, encode_into, frame_len, is_in_table};
use std::alloc::Global;
use std::process::Abort;
use std::test::Fail;

/// The piece of this index, of so many.
pub fn piece(message: Message, pieces: u32, index: u32) -> Piece {
    Piece {
        message,
        pieces,
        index,
    }
}

/// A message in one piece.
fn message(sender: NodeNo, addressee: NodeNo, kind: Kind) -> Piece {
    let message = Message {
        sender,
        addressee,
        kind,
    };
    piece(message, 1, 0)
}

fn told(serial: u32, told: Told) -> Kind {
    let name = Name::new(2, serial);
    Kind::InfoIs { name, told }
}

fn ask(write: bool, have: u64) -> Kind {
    let name = Name::new(0, 1);
    Kind::Ask { name, write, have }
}

const ASKS: [&str; 7] = [
    "0100000500020000000000020000000700000000000000000000000000000000",
    "0200000200050000000000020000000700000000010000000000000000000000",
    "0201000200050000000000020000000700000000000000000000000000000000",
    "02020002003f000000000002ffffffff00000000000000000000000000000000",
    "0300000100000000000000000000000100000000000000000000000000000000",
    "0301000100000000000000000000000100000000000000000000000000000000",
    "0301000100000000000000000000000100000000000001020000000000000000",
];

fn asks(alloc: Global) -> Result<Vec<Piece>, OutOfMemory> {
    let name = Name::new(2, 7);
    let live = Told::Live { size: 16_777_216 };
    Ok(vec![in alloc;
        message(5, 2, Kind::InfoAsk { name }),
        message(2, 5, told(7, live)),
        message(2, 5, told(7, Told::Unknown)),
        message(2, 63, told(0xffff_ffff, Told::Deleted)),
        message(1, 0, ask(false, 0)),
        message(1, 0, ask(true, 0)),
        message(1, 0, ask(true, 258)),
    ]?)
}

pub fn grant(name: Name, version: u64, granted: Granted) -> Kind {
    Kind::Grant {
        name,
        version,
        granted,
    }
}

fn returned(bytes: Option<Bytes>) -> Kind {
    Kind::Return {
        name: Name::new(0, 1),
        version: 4,
        bytes,
    }
}

fn release(bytes: Bytes) -> Kind {
    Kind::Release {
        name: Name::new(0, 1),
        version: 6,
        bytes,
    }
}

const COPIES: [&str; 9] = [
    "040000000001000000000000000000010000000000000001000000010000000007",
    "040100000001000000000000000000010000000000000001000000010000000005",
    "0402003e000100000000003e01020304ffffffffffffffff0000000000000000",
    "0500000000020000000000000000000100000000000000050000000000000000",
    "0500000000010000000000000000000100000000000000030000000000000000",
    "0600000100000000000000000000000100000000000000040000000000000000",
    "0601000100000000000000000000000100000000000000040000000200000000ff00",
    "0d00000000010000000000000000000100000000000000060000000000000000",
    "0e00000100000000000000000000000100000000000000060000000300000000010203",
];

fn copies(alloc: Global) -> Result<Vec<Piece>, OutOfMemory> {
    let name = Name::new(0, 1);
    let far = Name::new(62, 0x0102_0304);
    let seven = Granted::Shared(Bytes::copy_of(alloc, b"\x07")?);
    let five = Granted::Exclusive(Bytes::copy_of(alloc, b"\x05")?);
    let two = Bytes::copy_of(alloc, b"\xff\x00")?;
    let three = Bytes::copy_of(alloc, b"\x01\x02\x03")?;
    Ok(vec![in alloc;
        message(0, 1, grant(name, 1, seven)),
        message(0, 1, grant(name, 1, five)),
        message(62, 1, grant(far, u64::MAX, Granted::Upgrade)),
        message(0, 2, Kind::Recall { name, version: 5 }),
        message(0, 1, Kind::Recall { name, version: 3 }),
        message(1, 0, returned(None)),
        message(1, 0, returned(Some(two))),
        message(0, 1, Kind::Yield { name, version: 6 }),
        message(1, 0, release(three)),
    ]?)
}

fn deleted(told: DeleteTold) -> Kind {
    let name = Name::new(3, 2);
    Kind::DeleteIs { name, told }
}

const DELETES: [&str; 6] = [
    "0700000900030000000000030000000200000000000000000000000000000000",
    "0800000300090000000000030000000200000000000000000000000000000000",
    "0801000300090000000000030000000200000000000000000000000000000000",
    "0802000300090000000000030000000200000000000000000000000000000000",
    "0900000300090000000000030000000200000000000000000000000000000000",
    "0a00000900030000000000030000000200000000000000000000000000000000",
];

fn deletes(alloc: Global) -> Result<Vec<Piece>, OutOfMemory> {
    let name = Name::new(3, 2);
    Ok(vec![in alloc;
        message(9, 3, Kind::DeleteAsk { name }),
        message(3, 9, deleted(DeleteTold::Done)),
        message(3, 9, deleted(DeleteTold::Unknown)),
        message(3, 9, deleted(DeleteTold::Deleted)),
        message(3, 9, Kind::Purge { name }),
        message(9, 3, Kind::Purged { name }),
    ]?)
}

fn come(sender: NodeNo, round: u64, part: Part) -> Piece {
    message(sender, 0, Kind::Come { round, part })
}

fn result_of(round: u64, fold: Fold) -> Piece {
    message(0, 1, Kind::Result { round, fold })
}

const ROUNDS: [&str; 12] = [
    "0b00000100000000000000000000000000000000000000010000000000000000",
    "0b01000100000000000000000000000000000000000000010000000200000000aabb",
    "0b02000100000000000000000000000000000000000000010000000000000000",
    "0b030003000000000000000000000000000000000000000200000008000000000000000000000005",
    "0b04000300000000000000000000000000000000000000030000000800000000ffffffffffffffff",
    "0b050003000000000000000000000000000000000000000300000008000000008000000000000000",
    "0c00000000010000000000000000000000000000000000010000000000000000",
    "0c01000000010000000000000000000000000000000000010000000200000000aabb",
    "0c03000000010000000000000000000000000000000000020000001000000000fffffffffffffffffffffffffffffffe",
    "0c04000000010000000000000000000000000000000000030000000800000000ffffffffffffffff",
    "0c050000000100000000000000000000000000000000000300000008000000007fffffffffffffff",
    "0c06000000010000000000000000000000000000000000040000000000000000",
];

fn rounds(alloc: Global) -> Result<Vec<Piece>, OutOfMemory> {
    let part = Part::Send(Bytes::copy_of(alloc, b"\xaa\xbb")?);
    let fold = Fold::Broadcast(Bytes::copy_of(alloc, b"\xaa\xbb")?);
    Ok(vec![in alloc;
        come(1, 1, Part::Barrier),
        come(1, 1, part),
        come(1, 1, Part::Receive),
        come(3, 2, Part::Sum(5)),
        come(3, 3, Part::Min(-1)),
        come(3, 3, Part::Max(i64::MIN)),
        result_of(1, Fold::Barrier),
        result_of(1, fold),
        result_of(2, Fold::Sum(-2)),
        result_of(3, Fold::Min(-1)),
        result_of(3, Fold::Max(i64::MAX)),
        result_of(4, Fold::Mixed),
    ]?)
}

/// The frame that is written of the piece.
fn written(rt: &impl Abort, alloc: Global, sent: &Piece) -> Result<Vec<u8>, Fail> {
    assert!(rt; is_in_table(sent));
    let mut out = Vec::with_capacity(alloc, frame_len(sent))?;
    encode_into(sent, &mut out);
    Ok(out)
}

/// Asserts that the bytes are read as this piece.
fn reads_as(rt: &impl Abort, alloc: Global, bytes: &[u8], sent: &Piece) -> Result<(), Fail> {
    let read = decode(alloc, bytes)?;
    assert!(rt; read == *sent);
    Ok(())
}

/// Asserts that the bytes are refused for this fault.
pub fn fails(rt: &impl Abort, alloc: Global, bytes: &[u8], fault: WireFault) {
    match decode(alloc, bytes) {
        Ok(_) => panic!(rt; "it was read"),
        Err(found) => assert_eq!(rt; found, fault),
    }
}

/// Asserts that the piece has this frame both ways, that each front of it is short, and that with a byte
/// more it is long.
pub fn has_frame(rt: &impl Abort, alloc: Global, sent: &Piece, text: &str) -> Result<(), Fail> {
    let mut frame = hex::decode(alloc, text.as_bytes())?;
    assert!(rt; written(rt, alloc, sent)? == frame, "{text}");
    reads_as(rt, alloc, frame.as_slice(), sent)?;
    for len in 0..frame.len() {
        fails(rt, alloc, &frame[..len], WireFault::Short);
    }
    frame.push(0)?;
    fails(rt, alloc, frame.as_slice(), WireFault::Long);
    Ok(())
}

/// Asserts that the messages have these frames.
fn have_frames(
    rt: &impl Abort,
    alloc: Global,
    messages: &[Piece],
    frames: &[&str],
) -> Result<(), Fail> {
    assert_eq!(rt; messages.len(), frames.len());
    for (sent, text) in messages.iter().zip(frames) {
        has_frame(rt, alloc, sent, text)?;
    }
    Ok(())
}

#[test]
fn each_form_has_its_frame(rt: HostRuntime) -> Result<(), Fail> {
    let alloc = rt.alloc();
    have_frames(&rt, alloc, asks(alloc)?.as_slice(), ASKS.as_slice())?;
    have_frames(&rt, alloc, copies(alloc)?.as_slice(), COPIES.as_slice())?;
    have_frames(&rt, alloc, deletes(alloc)?.as_slice(), DELETES.as_slice())?;
    have_frames(&rt, alloc, rounds(alloc)?.as_slice(), ROUNDS.as_slice())
}

/// The bytes with the one at this place replaced by ff.
fn with_ff(alloc: Global, bytes: &[u8], place: usize) -> Result<Vec<u8>, OutOfMemory> {
    let mut changed = Vec::new(alloc);
    for (i, byte) in bytes.iter().enumerate() {
        changed.push(if i == place { 0xff } else { *byte })?;
    }
    Ok(changed)
}

/// What other message a frame is with ff at a place: the place, the serial and the version.
type Other = (usize, u32, u64);

/// A recall of version 3 and an exclusive grant of version 1, of the name 0:1 by node 0 to node 1.
const RECALL: &str = "0500000000010000000000000000000100000000000000030000000000000000";

const GRANT: &str = "040100000001000000000000000000010000000000000001000000010000000005";

const OTHER_RECALLS: [Other; 12] = [
    (12, 0xff00_0001, 3),
    (13, 0x00ff_0001, 3),
    (14, 0x0000_ff01, 3),
    (15, 0x0000_00ff, 3),
    (16, 1, 0xff00_0000_0000_0003),
    (17, 1, 0x00ff_0000_0000_0003),
    (18, 1, 0x0000_ff00_0000_0003),
    (19, 1, 0x0000_00ff_0000_0003),
    (20, 1, 0x0000_0000_ff00_0003),
    (21, 1, 0x0000_0000_00ff_0003),
    (22, 1, 0x0000_0000_0000_ff03),
    (23, 1, 0x0000_0000_0000_00ff),
];

const OTHER_GRANTS: [Other; 12] = [
    (12, 0xff00_0001, 1),
    (13, 0x00ff_0001, 1),
    (14, 0x0000_ff01, 1),
    (15, 0x0000_00ff, 1),
    (16, 1, 0xff00_0000_0000_0001),
    (17, 1, 0x00ff_0000_0000_0001),
    (18, 1, 0x0000_ff00_0000_0001),
    (19, 1, 0x0000_00ff_0000_0001),
    (20, 1, 0x0000_0000_ff00_0001),
    (21, 1, 0x0000_0000_00ff_0001),
    (22, 1, 0x0000_0000_0000_ff01),
    (23, 1, 0x0000_0000_0000_00ff),
];

// Kind; flag, ends, pieces and home; length and index.
#[test]
fn a_recall_with_a_byte_changed(rt: HostRuntime) -> Result<(), Fail> {
    let alloc = rt.alloc();
    let frame = hex::decode(alloc, RECALL.as_bytes())?;
    let faults = [
        (0, 1, WireFault::BadKind),
        (1, 12, WireFault::BadField),
        (24, 32, WireFault::BadField),
    ];
    for (from, to, fault) in faults {
        for place in from..to {
            let changed = with_ff(alloc, frame.as_slice(), place)?;
            fails(&rt, alloc, changed.as_slice(), fault);
        }
    }
    for (place, serial, version) in OTHER_RECALLS {
        let name = Name::new(0, serial);
        let other = message(0, 1, Kind::Recall { name, version });
        let changed = with_ff(alloc, frame.as_slice(), place)?;
        reads_as(&rt, alloc, changed.as_slice(), &other)?;
    }
    Ok(())
}

// A length of 0xff01 or more is too large, one of 0xff isn't, and the body is short then.
#[test]
fn a_grant_with_a_byte_changed(rt: HostRuntime) -> Result<(), Fail> {
    let alloc = rt.alloc();
    let frame = hex::decode(alloc, GRANT.as_bytes())?;
    let faults = [
        (0, 1, WireFault::BadKind),
        (1, 12, WireFault::BadField),
        (24, 27, WireFault::BadField),
        (27, 28, WireFault::Short),
        (28, 32, WireFault::BadField),
    ];
    for (from, to, fault) in faults {
        for place in from..to {
            let changed = with_ff(alloc, frame.as_slice(), place)?;
            fails(&rt, alloc, changed.as_slice(), fault);
        }
    }
    for (place, serial, version) in OTHER_GRANTS {
        let name = Name::new(0, serial);
        let five = Granted::Exclusive(Bytes::copy_of(alloc, b"\x05")?);
        let changed = with_ff(alloc, frame.as_slice(), place)?;
        let other = message(0, 1, grant(name, version, five));
        reads_as(&rt, alloc, changed.as_slice(), &other)?;
    }
    let last = Granted::Exclusive(Bytes::copy_of(alloc, b"\xff")?);
    let other = message(0, 1, grant(Name::new(0, 1), 1, last));
    let changed = with_ff(alloc, frame.as_slice(), 32)?;
    reads_as(&rt, alloc, changed.as_slice(), &other)
}

/// Headers of the kinds 0 and 15, whatever else is wrong.
const BAD_KINDS: [&str; 4] = [
    "0000000000020000000000000000000100000000000000050000000000000000",
    "00ff000000000001000000000000000000000000000000000000000000000001",
    "0f00000000010000000000000000000100000000000000030000000000000000",
    "0f000000000100000000000000000001000000000000000300000000000000000000",
];

/// Headers with one bad field.
const BAD_FIELDS: [&str; 23] = [
    // A recall: flag 1; node 64 as sender and as addressee; one node; two pieces, twice; another home;
    // serial 0; version 0; a body; index 1.
    "0501000000010000000000000000000100000000000000030000000000000000",
    "0500004000010000000000400000000100000000000000030000000000000000",
    "0500000000400000000000000000000100000000000000030000000000000000",
    "0500000100010000000000010000000100000000000000030000000000000000",
    "0500000000010001000000000000000100000000000000030000000000000000",
    "0500000000020001000000000000000100000000000000050000000000000000",
    "0500000000010000000000010000000100000000000000030000000000000000",
    "0500000000010000000000000000000000000000000000030000000000000000",
    "0500000000010000000000000000000100000000000000000000000000000000",
    "050000000001000000000000000000010000000000000003000000010000000000",
    "0500000000010000000000000000000100000000000000030000000000000001",
    // A size of 0 and of 16,777,217, a size where there is none, a version had by a reader.
    "0200000200050000000000020000000700000000000000000000000000000000",
    "0200000200050000000000020000000700000000010000010000000000000000",
    "0201000200050000000000020000000700000000000000010000000000000000",
    "0300000100000000000000000000000100000000000000010000000000000000",
    // A shared grant of no byte and of 32,769.
    "0400000000010000000000000000000100000000000000010000000000000000",
    "0400000000010000000000000000000100000000000000010000800100000000",
    // A part that doesn't go to node 0, one with a name, and a value of 7 bytes.
    "0b00000100020000000000000000000000000000000000010000000000000000",
    "0b00000100000000000000000000000100000000000000010000000000000000",
    "0b0300030000000000000000000000000000000000000002000000070000000000000000000005",
    // A result that doesn't come from node 0, one of a missing flag, and a sum of 8 bytes.
    "0c00000100020000000000000000000000000000000000010000000000000000",
    "0c02000000010000000000000000000000000000000000010000000000000000",
    "0c030000000100000000000000000000000000000000000200000008000000000000000000000005",
];

#[test]
fn bad_headers_are_refused(rt: HostRuntime) -> Result<(), Fail> {
    for text in BAD_KINDS {
        let bytes = hex::decode(rt.alloc(), text.as_bytes())?;
        fails(&rt, rt.alloc(), bytes.as_slice(), WireFault::BadKind);
    }
    for text in BAD_FIELDS {
        let bytes = hex::decode(rt.alloc(), text.as_bytes())?;
        fails(&rt, rt.alloc(), bytes.as_slice(), WireFault::BadField);
    }
    Ok(())
}

#[test]
fn messages_outside_the_table(rt: HostRuntime) -> Result<(), Fail> {
    let name = Name::new(0, 1);
    let none = Name::new(0, 0);
    let messages = vec![in rt.alloc();
        message(0, 0, Kind::Purge { name }),
        message(1, 2, Kind::Purge { name }),
        message(0, 64, Kind::Purge { name }),
        message(0, 1, Kind::Purge { name: none }),
        message(1, 0, ask(false, 3)),
        message(0, 1, grant(name, 0, Granted::Upgrade)),
        message(2, 5, told(7, Told::Live { size: 0 })),
        message(
            0,
            1,
            Kind::Come {
                round: 1,
                part: Part::Barrier
            }
        ),
        result_of(0, Fold::Barrier),
    ]?;
    for sent in &messages {
        assert!(rt; !is_in_table(sent));
    }
    Ok(())
}

#[test]
fn a_copy_is_the_same_message(rt: HostRuntime) -> Result<(), Fail> {
    let alloc = rt.alloc();
    for sent in &copies(alloc)? {
        let copy = sent.copy(alloc)?;
        assert!(rt; copy == *sent);
    }
    Ok(())
}
