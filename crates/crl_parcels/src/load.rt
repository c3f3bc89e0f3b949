//! The bytes of a region that a message carries.
ghost use Rattle.std.specs.Prelude.{◌≡◌, length, true};
ghost use Rattle.crl_protocol.specs.Parcels as parcels;
ghost use Rattle.crl_parcels.specs.ParcelKeys.{has_load};

use crl_model::bytes::Bytes;
use crl_model::message::{Granted, Kind};

/// The number of bytes of a region that the message carries: 0 if it is of a kind without them.
pub fn load_len(kind: &Kind) -> usize
    ensures { result ≡ length (parcels.load_of kind.now) }
{
    match kind {
        Kind::Grant { granted, .. } => granted_len(granted),
        Kind::Return {
            bytes: Some(bytes),
            ..
        } => bytes.len(),
        Kind::Release { bytes, .. } => bytes.len(),
        _ => 0,
    }
}

fn granted_len(granted: &Granted) -> usize
    ensures { result ≡ length (parcels.load_of_grant granted.now) }
{
    match granted {
        Granted::Shared(bytes) | Granted::Exclusive(bytes) => bytes.len(),
        Granted::Upgrade => 0,
    }
}

/// The bytes of a message of a kind that carries some. They are moved and not copied.
pub fn take_load(kind: Kind) -> Bytes
    requires { has_load kind ≡ true }
    ensures { result ≡ parcels.load_of kind }
{
    match kind {
        Kind::Grant {
            granted: Granted::Shared(bytes) | Granted::Exclusive(bytes),
            ..
        } => bytes,
        Kind::Return {
            bytes: Some(bytes),
            ..
        } => bytes,
        Kind::Release { bytes, .. } => bytes,
        _ => unreachable!(),
    }
}

/// The message with these bytes in the place of its own, if it is of a kind that carries some; else the
/// message as it is. They are moved and not copied.
pub fn with_load(kind: Kind, bytes: Bytes) -> Kind
    ensures { result ≡ parcels.with_load bytes kind }
{
    match kind {
        Kind::Grant {
            name,
            version,
            granted,
        } => Kind::Grant {
            name,
            version,
            granted: grant_with(granted, bytes),
        },
        Kind::Return {
            name,
            version,
            bytes: Some(_),
        } => Kind::Return {
            name,
            version,
            bytes: Some(bytes),
        },
        Kind::Release { name, version, .. } => Kind::Release {
            name,
            version,
            bytes,
        },
        kind => kind,
    }
}

fn grant_with(granted: Granted, bytes: Bytes) -> Granted
    ensures { result ≡ parcels.grant_with bytes granted }
{
    match granted {
        Granted::Shared(_) => Granted::Shared(bytes),
        Granted::Exclusive(_) => Granted::Exclusive(bytes),
        Granted::Upgrade => Granted::Upgrade,
    }
}
