//! What the words of the table mean.
ghost use Rattle.std.specs.Prelude.{◌≡◌};
ghost use Rattle.crl_wire.specs.Table as table;

use crate::form::{Body, Home, Number, Shape};
use crate::header::Header;
use crl_model::{BROADCAST_LIMIT, NODE_LIMIT, NodeNo, REGION_LIMIT};
use crl_pieces::{PIECE_LEN, PIECES_LIMIT};

/// Whether they are two nodes.
fn are_ends(sender: NodeNo, addressee: NodeNo) -> bool
    ensures { result ≡ table.are_ends sender addressee }
{
    sender < NODE_LIMIT && addressee < NODE_LIMIT && sender != addressee
}

/// Whether the name is of the right home, or is 0 where there is none.
fn is_home(home: Home, header: &Header) -> bool
    ensures { result ≡ table.is_home home header.now }
{
    match home {
        Home::Sender => header.home == header.sender as u32 && header.serial >= 1,
        Home::Addressee => header.home == header.addressee as u32 && header.serial >= 1,
        Home::ToZero => header.home == 0 && header.serial == 0 && header.addressee == 0,
        Home::FromZero => header.home == 0 && header.serial == 0 && header.sender == 0,
    }
}

fn is_number(rule: Number, number: u64) -> bool
    ensures { result ≡ table.is_number rule number }
{
    match rule {
        Number::Zero => number == 0,
        Number::Any => true,
        Number::FromOne => number >= 1,
        Number::Size => number >= 1 && number <= REGION_LIMIT as u64,
    }
}

fn is_len(rule: Body, len: u32) -> bool
    ensures { result ≡ table.is_len rule len }
{
    match rule {
        Body::Empty => len == 0,
        Body::Region => len >= 1 && len <= PIECE_LEN,
        Body::Broadcast => len >= 1 && len as usize <= BROADCAST_LIMIT,
        Body::Value => len == 8,
        Body::Total => len == 16,
    }
}

/// Whether the piece has a place among the pieces, and the length that goes with it.
fn is_place(rule: Body, header: &Header) -> bool
    ensures { result ≡ table.is_place rule header.now }
{
    match rule {
        Body::Region => {
            (header.last_index as u32) < PIECES_LIMIT
                && header.index <= header.last_index as u32
                && (header.index == header.last_index as u32 || header.body_len == PIECE_LEN)
        }
        Body::Empty | Body::Broadcast | Body::Value | Body::Total => {
            header.last_index == 0 && header.index == 0
        }
    }
}

/// Whether the header is as the shape says, but for kind and flag.
pub(crate) fn is_shaped(shape: Shape, header: &Header) -> bool
    ensures { result ≡ table.is_shaped shape header.now }
{
    are_ends(header.sender, header.addressee)
        && is_home(shape.home, header)
        && is_number(shape.number, header.number)
        && is_len(shape.body, header.body_len)
        && is_place(shape.body, header)
}
