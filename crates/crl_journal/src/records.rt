//! The records of one node.
ghost use Rattle.std.specs.Prelude.{◌≡◌, ◌+◌, ◌<◌, ◌≤◌, ◌++◌, ◌∷◌, [], OnOk, length};
ghost use Rattle.crl_journal.specs.Merging.{entries_of};

use crate::queue::Queue;
use crl_model::OutOfMemory;
use crl_model::entry::Entry;
use std::alloc::Global;
use std::collections::VecDeque;
use std::marker::Model;

/// The records of a node, the oldest first: positions and entries apart, so that the entries can be handed on as they
/// stand. A contract sees them as a `RecordsState`. Only `reserve` takes memory.
#[derive(Drop)]
pub struct Records {
    positions: Vec<u64>,
    entries: Vec<Entry>,
}

impl Model for Records {
    ghost use Rattle.std.specs.Prelude.{◌≡◌, ◌-◌, length, min, vec_len, vec_capacity};
    ghost use Rattle.crl_journal.specs.RecordsState.{RecordsState, with_positions};

    ghost Value = { RecordsState };

    ghost view = { λ r. record { list = with_positions r.positions.items r.entries.items; room = min (vec_capacity r.positions - vec_len r.positions) (vec_capacity r.entries - vec_len r.entries) } };

    ghost invariant = { λ r. length r.positions.items ≡ length r.entries.items };
}

impl Records {
    /// No record, and no room.
    pub(crate) fn new(alloc: Global) -> Records
        ensures { result.list ≡ [] }
    {
        Records {
            positions: Vec::new(alloc),
            entries: Vec::new(alloc),
        }
    }

    /// Room for at least so many records more. On an error what is written stays, and no room is lost.
    ///
    /// # Errors
    ///
    /// `OutOfMemory`.
    pub(crate) fn reserve(&mut self, count: usize) -> Result<(), OutOfMemory>
        ensures list { self.new.list ≡ self.old.list }
        ensures ok { OnOk result (count ≤ self.new.room) }
        ensures more { self.old.room ≤ self.new.room }
    {
        self.positions.reserve(count)?;
        self.entries.reserve(count)
    }

    /// The number of records for which there is room.
    pub(crate) fn room(&self) -> usize
        ensures { result ≡ self.now.room }
    {
        let positions = self.positions.capacity() - self.positions.len();
        let entries = self.entries.capacity() - self.entries.len();
        positions.min(entries)
    }

    /// Writes a record.
    pub(crate) fn push(&mut self, position: u64, entry: Entry)
        requires { 0 < self.old.room }
        ensures list { self.new.list ≡ self.old.list ++ record { position = position; entry = entry } ∷ [] }
        ensures room { self.new.room + 1 ≡ self.old.room }
    {
        self.positions.push_reserved(position);
        self.entries.push_reserved(entry);
    }

    /// The number of records.
    pub(crate) fn len(&self) -> usize
        ensures { result ≡ length self.now.list }
    {
        self.entries.as_slice().len()
    }

    /// The entries alone.
    pub(crate) fn into_entries(self) -> Vec<Entry>
        ensures { result.items ≡ entries_of self.list }
    {
        self.entries
    }

    /// The records, to be taken out one by one.
    pub(crate) fn into_queue(self) -> Queue
        ensures { result ≡ self.list }
    {
        let Records { positions, entries } = self;
        Queue::new(VecDeque::from_vec(positions), VecDeque::from_vec(entries))
    }
}
