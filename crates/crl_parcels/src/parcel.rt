//! A message of which some pieces came.
use crate::key::ParcelKey;
use crl_pieces::gather::Gather;

/// The pieces that came of the message with this key.
#[derive(Debug, Drop)]
pub struct Parcel {
    pub key: ParcelKey,
    pub gather: Gather,
}
