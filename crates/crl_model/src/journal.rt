//! What a node writes down of a run: its entries and its events, each with its position in the run, from 0.
use crate::entry::Entry;
use crate::event::Event;

/// An entry, with the position of the event that decided it.
#[derive(Debug, Drop, PartialEq)]
pub struct Recorded {
    pub position: u64,
    pub entry: Entry,
}

/// An event of the node.
#[derive(Debug, Drop, PartialEq)]
pub struct Note {
    pub position: u64,
    pub event: Event,
}
