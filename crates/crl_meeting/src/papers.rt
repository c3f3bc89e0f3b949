//! Papers for copies of the same bytes.
ghost use Rattle.std.specs.Prelude.{◌≡◌, ◌+◌, ◌<◌, ◌≤◌, IfOk};

use crl_model::OutOfMemory;
use crl_outbox::Paper;
use std::alloc::Global;
use std::marker::Model;

/// Papers of one size. A contract sees them as a `PapersState`.
#[derive(Drop)]
pub struct Papers {
    size: usize,
    papers: Vec<Paper>,
}

impl Model for Papers {
    ghost use Rattle.std.specs.Prelude.{length};
    ghost use Rattle.crl_meeting.specs.PapersState.{PapersState, AreOfSize};

    ghost Value = { PapersState };

    ghost view = { λ p. record { size = p.size; count = length p.papers.items } };

    ghost invariant = { λ p. AreOfSize p.size p.papers.items };
}

impl Papers {
    /// So many papers, each for so many bytes.
    ///
    /// # Errors
    ///
    /// `OutOfMemory`.
    pub fn new(alloc: Global, size: usize, count: usize) -> Result<Papers, OutOfMemory>
        ensures { IfOk result (λ papers. papers ≡ record { size = size; count = count }) }
    {
        let mut papers = Vec::with_capacity(alloc, count)?;
        for _ in 0..count {
            papers.push(Paper::new(alloc, size)?)?;
        }
        Ok(Papers { size, papers })
    }

    /// Takes one of them.
    pub fn take(&mut self) -> Paper
        requires { 0 < self.old.count }
        ensures paper { self.old.size ≤ result }
        ensures size { self.new.size ≡ self.old.size }
        ensures count { self.new.count + 1 ≡ self.old.count }
    {
        self.papers.pop().unwrap()
    }
}
