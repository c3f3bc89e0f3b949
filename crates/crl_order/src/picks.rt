//! Words from a list.
ghost use Rattle.std.specs.Prelude.{◌≡◌, IfOk, drop, slice_index_or};

use crl_model::OutOfMemory;
use std::alloc::Global;
use std::marker::Model;

/// The words of a list, and then zeros. A contract sees the words of the list that are left.
#[derive(Drop)]
pub struct Picks {
    list: Vec<u32>,
    place: usize,
}

impl Model for Picks {
    ghost use Rattle.std.specs.Prelude.{List, ℕ, ◌≤◌, length, drop};

    ghost Value = { List ℕ };

    ghost view = { λ p. drop p.place p.list.items };

    ghost invariant = { λ p. p.place ≤ length p.list.items };
}

impl Picks {
    /// The words of this list.
    ///
    /// # Errors
    ///
    /// `OutOfMemory`.
    pub fn new(alloc: Global, values: &[u32]) -> Result<Picks, OutOfMemory>
        ensures { IfOk result (λ picks. picks ≡ values.now) }
    {
        let mut list = Vec::with_capacity(alloc, values.len())?;
        list.extend_from_slice(values)?;
        Ok(Picks { list, place: 0 })
    }

    /// The next word.
    pub(crate) fn next_word(&mut self) -> u32
        ensures word { result ≡ slice_index_or self.old 0 0 }
        ensures rest { self.new ≡ drop 1 self.old }
    {
        if self.place == self.list.len() {
            return 0;
        }
        let word = self.list[self.place];
        self.place += 1;
        word
    }
}
