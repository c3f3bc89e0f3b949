//! Tests: pieces come in any order, and those of two messages one after the other.
use crate::{LoadKind, ParcelKey, Parcels, key_of_message, load_len, take_load, with_load};
use crl_model::bytes::Bytes;
use crl_model::message::{Granted, Kind, Message};
use crl_model::name::Name;
use crl_model::{NodeNo, OutOfMemory, REGION_LIMIT};
use crl_pieces::gather::Gather;
use crl_pieces::parts::{count, cut};
use std::alloc::Global;

/// The key of a return of a copy to node 1.
fn key(sender: NodeNo) -> ParcelKey {
    ParcelKey {
        sender,
        name: Name::new(1, 5),
        load: LoadKind::Return,
        version: 9,
    }
}

/// The piece of this index of these bytes comes, if it is one of them and is missing.
fn comes(
    alloc: Global,
    parcels: &mut Parcels,
    key: ParcelKey,
    index: u32,
    whole: &[u8],
) -> Result<Option<Bytes>, OutOfMemory> {
    if whole.len() > REGION_LIMIT as usize {
        return Ok(None);
    }
    let size = whole.len() as u32;
    if !parcels.is_missing(key, index, count(size)) || index >= count(size) {
        return Ok(None);
    }
    if let Some(known) = parcels.size_of(key)
        && known != size
    {
        return Ok(None);
    }
    parcels.ready()?;
    let blank = Gather::new(alloc, size)?;
    Ok(parcels.add(key, index, cut(whole, index), size, Some(blank)))
}

/// Bytes of two pieces, with these four where the second piece begins.
fn two_pieces(alloc: Global, marks: &[u8; 4]) -> Result<Bytes, OutOfMemory> {
    let mut whole = Bytes::zeros(alloc, 40_000)?;
    whole.put(32_766, marks);
    Ok(whole)
}

#[test]
fn the_second_piece_first(rt: HostRuntime) -> Result<(), OutOfMemory> {
    let whole = two_pieces(rt.alloc(), &[1, 2, 3, 4])?;
    let mut parcels = Parcels::new(rt.alloc());
    let first = comes(rt.alloc(), &mut parcels, key(2), 1, whole.as_slice())?;
    assert!(rt; first.is_none());
    assert!(rt; parcels.has(key(2)));
    assert!(rt; !parcels.is_missing(key(2), 1, 2));
    assert!(rt; parcels.is_missing(key(2), 0, 2));
    let last = comes(rt.alloc(), &mut parcels, key(2), 0, whole.as_slice())?;
    assert!(rt; last == Some(whole));
    assert!(rt; !parcels.has(key(2)));
    Ok(())
}

#[test]
fn two_messages_interleaved(rt: HostRuntime) -> Result<(), OutOfMemory> {
    let one = two_pieces(rt.alloc(), &[1, 2, 3, 4])?;
    let two = two_pieces(rt.alloc(), &[5, 6, 7, 8])?;
    let mut parcels = Parcels::new(rt.alloc());
    let _ = comes(rt.alloc(), &mut parcels, key(2), 0, one.as_slice())?;
    let _ = comes(rt.alloc(), &mut parcels, key(3), 1, two.as_slice())?;
    assert!(rt; parcels.size_of(key(3)) == Some(40_000));
    let last_of_one = comes(rt.alloc(), &mut parcels, key(2), 1, one.as_slice())?;
    assert!(rt; last_of_one == Some(one));
    assert!(rt; !parcels.has(key(2)));
    assert!(rt; parcels.has(key(3)));
    let last_of_two = comes(rt.alloc(), &mut parcels, key(3), 0, two.as_slice())?;
    assert!(rt; last_of_two == Some(two));
    assert!(rt; !parcels.has(key(3)));
    Ok(())
}

#[test]
fn bytes_are_put_in_and_taken_out(rt: HostRuntime) -> Result<(), OutOfMemory> {
    let name = Name::new(1, 5);
    let upgrade = Message {
        sender: 1,
        addressee: 2,
        kind: Kind::Grant {
            name,
            version: 9,
            granted: Granted::Upgrade,
        },
    };
    assert!(rt; key_of_message(&upgrade).is_none());
    let back = Message {
        sender: 2,
        addressee: 1,
        kind: Kind::Return {
            name,
            version: 9,
            bytes: Some(Bytes::copy_of(rt.alloc(), &[7])?),
        },
    };
    assert!(rt; key_of_message(&back) == Some(key(2)));
    let whole = Message {
        sender: 2,
        addressee: 1,
        kind: with_load(back.kind, Bytes::copy_of(rt.alloc(), &[7, 8])?),
    };
    assert_eq!(rt; load_len(&whole.kind), 2);
    if key_of_message(&whole).is_some() {
        let load = take_load(whole.kind);
        assert_eq!(rt; load.as_slice(), [7, 8].as_slice());
    }
    Ok(())
}
