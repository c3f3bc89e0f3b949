//! What a node has to send, or has yet to handle: pieces of messages in their order, with places for more
//! of them; and the paper on which the bytes of a message are written. Places and paper are taken
//! beforehand, so that sending takes no memory.
#![tactic(auto)]

mod cover;
mod mailbox;
mod paper;
#[cfg(test)]
mod tests;

pub use cover::{Cover, CoverKind};
pub use mailbox::Mailbox;
pub use paper::{Paper, Sheets};
