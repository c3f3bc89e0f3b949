//! The frames of messages, and of the pieces that a region's bytes travel in: a header of 32 bytes and a
//! body. `specs/Table.antt` is the table of what stands in a header, `specs/Frame.antt` says the one frame
//! of each piece, and `specs/Decoding.antt` what is read of any bytes.
#![tactic(auto)]

mod body;
mod build;
mod fault;
mod field;
mod form;
mod header;
mod kind;
pub mod laws;
mod passing;
mod reading;
mod received;
mod rule;
mod table;
mod writing;

pub use fault::WireFault;
pub use passing::{encode, receive};
pub use reading::decode;
pub use received::Received;
pub use writing::{encode_into, frame_len, is_in_table};
