//! Records that are taken out, the oldest first.
ghost use Rattle.std.specs.Prelude.{◌≡◌, ◌∷◌, [], length, MatchOption};
ghost use Rattle.crl_journal.specs.RecordsState.{with_positions, first_position};

use crl_model::entry::Entry;
use crl_model::journal::Recorded;
use std::collections::VecDeque;
use std::marker::Model;

/// Records of a node that are left, the oldest first. A contract sees them as a list.
#[derive(Drop)]
pub(crate) struct Queue {
    positions: VecDeque<u64>,
    entries: VecDeque<Entry>,
}

impl Model for Queue {
    ghost use Rattle.std.specs.Prelude.{◌≡◌, List, length};
    ghost use Rattle.crl_model.specs.declared.journal.Recorded.{Recorded};
    ghost use Rattle.crl_journal.specs.RecordsState.{with_positions};

    ghost Value = { List Recorded };

    ghost view = { λ q. with_positions q.positions.items q.entries.items };

    ghost invariant = { λ q. length q.positions.items ≡ length q.entries.items };
}

impl Queue {
    /// Records with these positions and entries, which are as many.
    pub(crate) fn new(positions: VecDeque<u64>, entries: VecDeque<Entry>) -> Queue
        requires { length positions.items ≡ length entries.items }
        ensures { result ≡ with_positions positions.items entries.items }
    {
        Queue { positions, entries }
    }

    /// The position of the first record, if there is one.
    pub(crate) fn first(&self) -> Option<u64>
        ensures { result ≡ first_position self.now }
    {
        match self.positions.front() {
            Some(position) => Some(*position),
            None => None,
        }
    }

    /// Takes the first record out.
    pub(crate) fn pop(&mut self) -> Option<Recorded>
        ensures { MatchOption result (self.old ≡ []) (λ first. self.old ≡ first ∷ self.new) }
    {
        match (self.positions.pop_front(), self.entries.pop_front()) {
            (Some(position), Some(entry)) => Some(Recorded { position, entry }),
            _ => None,
        }
    }
}
