//! What all crates of the region library speak of: names, bytes, calls, messages, events and entries, and
//! the words in which nodes keep account of regions.
#![tactic(auto)]

pub mod activity;
pub mod blocked;
pub mod bytes;
pub mod call;
pub mod choice;
pub mod collective;
pub mod directory;
pub mod entry;
pub mod event;
pub mod journal;
pub mod mapping;
pub mod message;
pub mod name;
pub mod piece;
pub mod report;
pub mod stage;
pub mod statement;

pub use std::alloc::AllocError as OutOfMemory;

/// The number of a node: 0 to 63.
pub type NodeNo = u16;

/// The largest number of nodes.
pub const NODE_LIMIT: NodeNo = 64;

/// The largest region, in bytes.
pub const REGION_LIMIT: u32 = 16_777_216;

/// The most bytes that a broadcast sends.
pub const BROADCAST_LIMIT: usize = 65_536;
