//! The pieces that came to a node of messages of which some are missing; and the bytes of messages, taken
//! out and put in without copying.
#![tactic(auto)]

mod key;
mod load;
mod parcel;
mod parcels;
#[cfg(test)]
mod tests;

pub use key::{LoadKind, ParcelKey, key_of_message};
pub use load::{load_len, take_load, with_load};
pub use parcel::Parcel;
pub use parcels::Parcels;
