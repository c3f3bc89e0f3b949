//! By what the pieces of a message are told from those of others.
ghost use Rattle.std.specs.Prelude.{◌≡◌, is_some};
ghost use Rattle.crl_protocol.specs.Parcels.{key_eq, key_of, load_eq};
ghost use Rattle.crl_parcels.specs.ParcelKeys.{key_of_parcel, key_of_some, has_load, load_named};

use crl_model::NodeNo;
use crl_model::message::{Granted, Kind, Message};
use crl_model::name::Name;

/// The kinds of messages that carry bytes of a region.
#[derive(Clone, Copy, Debug, PartialEq, Eq)]
pub enum LoadKind {
    Grant,
    Return,
    Release,
}

/// By what a node tells messages with bytes apart that are on their way to it.
#[derive(Clone, Copy, Debug, PartialEq, Eq)]
pub struct ParcelKey {
    pub sender: NodeNo,
    pub name: Name,
    pub load: LoadKind,
    pub version: u64,
}

/// Whether the keys are the same.
pub(crate) fn is_key(key: ParcelKey, other: ParcelKey) -> bool
    ensures { result ≡ key_eq (key_of_parcel key) (key_of_parcel other) }
{
    is_load(key.load, other.load)
        && key.sender == other.sender
        && key.name == other.name
        && key.version == other.version
}

/// Whether the kinds are the same.
fn is_load(load: LoadKind, other: LoadKind) -> bool
    ensures { result ≡ load_eq (load_named load) (load_named other) }
{
    match load {
        LoadKind::Grant => matches!(other, LoadKind::Grant),
        LoadKind::Return => matches!(other, LoadKind::Return),
        LoadKind::Release => matches!(other, LoadKind::Release),
    }
}

/// The key of the message. None exactly if it is of a kind that carries no bytes of a region.
pub fn key_of_message(message: &Message) -> Option<ParcelKey>
    ensures key { key_of_some result ≡ key_of message.now }
    ensures load { is_some result ≡ has_load message.now.kind }
{
    let (load, name, version) = match &message.kind {
        Kind::Grant {
            granted: Granted::Shared(_) | Granted::Exclusive(_),
            name,
            version,
        } => (LoadKind::Grant, *name, *version),
        Kind::Return {
            name,
            version,
            bytes: Some(_),
        } => (LoadKind::Return, *name, *version),
        Kind::Release { name, version, .. } => (LoadKind::Release, *name, *version),
        _ => return None,
    };
    Some(ParcelKey {
        sender: message.sender,
        name,
        load,
        version,
    })
}
