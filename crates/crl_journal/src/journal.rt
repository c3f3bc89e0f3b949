//! The records and the notes of one node.
ghost use Rattle.std.specs.Prelude.{◌≡◌, ◌+◌, ◌<◌, ◌≤◌, ◌++◌, ◌∷◌, [], length, OnOk};

use crate::records::Records;
use crl_model::OutOfMemory;
use crl_model::entry::Entry;
use crl_model::event::Event;
use crl_model::journal::Note;
use std::alloc::Global;
use std::marker::Model;

/// The entries and the events of a node, each with its position in the run, the oldest first. A contract
/// sees it as a `JournalState`. Only `reserve` takes memory.
#[derive(Drop)]
pub struct Journal {
    records: Records,
    notes: Vec<Note>,
}

impl Model for Journal {
    ghost use Rattle.std.specs.Prelude.{◌-◌, vec_len, vec_capacity};
    ghost use Rattle.crl_journal.specs.JournalState.{JournalState};

    ghost Value = { JournalState };

    ghost view = { λ j. record { records = j.records.list; record_room = j.records.room; notes = j.notes.items; note_room = vec_capacity j.notes - vec_len j.notes } };
}

impl Journal {
    /// Nothing, and no room.
    pub fn new(alloc: Global) -> Journal
        ensures { (result.records ≡ []) × (result.notes ≡ []) }
    {
        Journal {
            records: Records::new(alloc),
            notes: Vec::new(alloc),
        }
    }

    /// Room for at least so many records and so many notes more. On an error what is written stays, and no
    /// room is lost.
    ///
    /// # Errors
    ///
    /// `OutOfMemory`.
    pub fn reserve(&mut self, records: usize, notes: usize) -> Result<(), OutOfMemory>
        ensures same { (self.new.records ≡ self.old.records) × (self.new.notes ≡ self.old.notes) }
        ensures ok { OnOk result ((records ≤ self.new.record_room) × (notes ≤ self.new.note_room)) }
        ensures more { (self.old.record_room ≤ self.new.record_room) × (self.old.note_room ≤ self.new.note_room) }
    {
        self.records.reserve(records)?;
        self.notes.reserve(notes)
    }

    /// The number of records for which there is room.
    pub fn record_room(&self) -> usize
        ensures { result ≡ self.now.record_room }
    {
        self.records.room()
    }

    /// The number of notes for which there is room.
    pub fn note_room(&self) -> usize
        ensures { result ≡ self.now.note_room }
    {
        self.notes.capacity() - self.notes.len()
    }

    /// Writes the entry that the event at this position decided.
    pub fn record(&mut self, position: u64, entry: Entry)
        requires { 0 < self.old.record_room }
        ensures records { self.new.records ≡ self.old.records ++ record { position = position; entry = entry } ∷ [] }
        ensures room { self.new.record_room + 1 ≡ self.old.record_room }
        ensures notes { (self.new.notes ≡ self.old.notes) × (self.new.note_room ≡ self.old.note_room) }
    {
        self.records.push(position, entry);
    }

    /// Writes the event at this position.
    pub fn note(&mut self, position: u64, event: Event)
        requires { 0 < self.old.note_room }
        ensures notes { self.new.notes ≡ self.old.notes ++ record { position = position; event = event } ∷ [] }
        ensures room { self.new.note_room + 1 ≡ self.old.note_room }
        ensures records { (self.new.records ≡ self.old.records) × (self.new.record_room ≡ self.old.record_room) }
    {
        self.notes.push_reserved(Note { position, event });
    }

    /// The number of records.
    pub fn record_count(&self) -> usize
        ensures { result ≡ length self.now.records }
    {
        self.records.len()
    }

    /// The records; the notes are let go.
    pub fn into_records(self) -> Records
        ensures { result.list ≡ self.records }
    {
        self.records
    }

    /// The notes.
    pub fn notes(&self) -> &[Note]
        ensures { result.now ≡ self.now.notes }
    {
        self.notes.as_slice()
    }
}
