//! Messages that carry bytes of a region, without the bytes.
ghost use Rattle.std.specs.Prelude.{◌≡◌};
ghost use Rattle.crl_outbox.specs.Covers.{message_with};

use crl_model::NodeNo;
use crl_model::bytes::Bytes;
use crl_model::message::{Granted, Kind, Message};
use crl_model::name::Name;

/// The kinds of messages that carry bytes of a region.
#[derive(Clone, Copy, Debug, PartialEq, Eq)]
pub enum CoverKind {
    /// A grant of a shared copy.
    SharedGrant,
    /// A grant of an exclusive copy.
    ExclusiveGrant,
    Return,
    Release,
}

/// What such a message says beside the bytes.
#[derive(Clone, Copy, Debug, PartialEq, Eq)]
pub struct Cover {
    pub sender: NodeNo,
    pub addressee: NodeNo,
    pub kind: CoverKind,
    pub name: Name,
    pub version: u64,
}

impl Cover {
    /// The message with these bytes. They are moved and not copied.
    pub fn message(self, bytes: Bytes) -> Message
        ensures { result ≡ message_with self bytes }
    {
        let Cover {
            sender,
            addressee,
            kind,
            name,
            version,
        } = self;
        let kind = match kind {
            CoverKind::SharedGrant => Kind::Grant {
                name,
                version,
                granted: Granted::Shared(bytes),
            },
            CoverKind::ExclusiveGrant => Kind::Grant {
                name,
                version,
                granted: Granted::Exclusive(bytes),
            },
            CoverKind::Return => Kind::Return {
                name,
                version,
                bytes: Some(bytes),
            },
            CoverKind::Release => Kind::Release {
                name,
                version,
                bytes,
            },
        };
        Message {
            sender,
            addressee,
            kind,
        }
    }
}
