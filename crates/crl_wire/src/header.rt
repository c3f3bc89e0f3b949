//! The header of a frame, field by field.
ghost use Rattle.std.specs.Prelude.{◌≡◌, ◌+◌, ◌≤◌, ◌++◌, length, vec_len, vec_capacity};
ghost use Rattle.crl_wire.specs.Frame.{layout};
ghost use Rattle.crl_wire.specs.Decoding.{header_at};

use crate::field::{put, u16_at, u32_at, u64_at};
use crl_model::NodeNo;

/// The bytes of a header.
pub(crate) const HEADER_LEN: usize = 32;

/// The fields of a header, in their order. `home` and `serial` are the name's, `body_len` is the number
/// of bytes of the body, `index` is the piece's place from 0, and `last_index` that of the last piece.
#[derive(Clone, Copy, Debug, PartialEq, Eq)]
pub(crate) struct Header {
    pub kind: u8,
    pub flag: u8,
    pub sender: NodeNo,
    pub addressee: NodeNo,
    pub last_index: u16,
    pub home: u32,
    pub serial: u32,
    pub number: u64,
    pub body_len: u32,
    pub index: u32,
}

/// The header at the front of a frame, which has a header's bytes.
#[tactic(auto, unfolding(crate::specs::Decoding::header_at))]
pub(crate) fn read_header(frame: &[u8]) -> Header
    requires { HEADER_LEN ≤ length frame.now }
    ensures { result ≡ header_at frame.now }
{
    Header {
        kind: frame[0],
        flag: frame[1],
        sender: u16_at(frame, 2),
        addressee: u16_at(frame, 4),
        last_index: u16_at(frame, 6),
        home: u32_at(frame, 8),
        serial: u32_at(frame, 12),
        number: u64_at(frame, 16),
        body_len: u32_at(frame, 24),
        index: u32_at(frame, 28),
    }
}

/// Puts the header at the end of `out`, which has spare capacity for it.
#[tactic(auto, unfolding(crate::specs::Frame::layout))]
pub(crate) fn put_header(header: &Header, out: &mut Vec<u8>)
    requires { vec_len out.old + HEADER_LEN ≤ vec_capacity out.old }
    ensures items { out.new.items ≡ out.old.items ++ layout header.now }
    ensures room { vec_capacity out.old ≤ vec_capacity out.new }
{
    put(&[header.kind, header.flag], out);
    put(&header.sender.to_be_bytes(), out);
    put(&header.addressee.to_be_bytes(), out);
    put(&header.last_index.to_be_bytes(), out);
    put(&header.home.to_be_bytes(), out);
    put(&header.serial.to_be_bytes(), out);
    put(&header.number.to_be_bytes(), out);
    put(&header.body_len.to_be_bytes(), out);
    put(&header.index.to_be_bytes(), out);
}
