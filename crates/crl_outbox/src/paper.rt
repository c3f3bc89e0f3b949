//! Paper for bytes.
ghost use Rattle.std.specs.Prelude.{◌≡◌, ◌-◌, ◌<◌, ◌≤◌, ◌∷◌, IfOk, IsSome, Some, All, length, min};
ghost use Rattle.crl_pieces.specs.Pieces as pieces;
ghost use Rattle.crl_outbox.specs.Stacks.{IsStack};

use crl_model::OutOfMemory;
use crl_model::bytes::Bytes;
use crl_pieces::PIECE_LEN;
use crl_pieces::parts::count;
use std::alloc::Global;
use std::marker::Model;

/// Memory for so many bytes, on which nothing is written yet. A contract sees it as that number.
#[derive(Drop)]
pub struct Paper {
    blank: Vec<u8>,
}

impl Model for Paper {
    ghost use Rattle.std.specs.Prelude.{◌≡◌, ℕ, vec_len, vec_capacity};

    ghost Value = { ℕ };

    ghost view = { λ p. vec_capacity p.blank };

    ghost invariant = { λ p. vec_len p.blank ≡ 0 };
}

impl Paper {
    /// Paper for so many bytes.
    ///
    /// # Errors
    ///
    /// `OutOfMemory`.
    pub fn new(alloc: Global, room: usize) -> Result<Paper, OutOfMemory>
        ensures { IfOk result (λ paper. paper ≡ room) }
    {
        Ok(Paper {
            blank: Vec::with_capacity(alloc, room)?,
        })
    }

    /// The bytes, written on this paper. This takes no memory.
    pub fn write(self, bytes: &[u8]) -> Bytes
        requires { length bytes.now ≤ self }
        ensures { result ≡ bytes.now }
    {
        Bytes::from_vec(self.write_vec(bytes))
    }

    /// The same as a vector.
    pub fn write_vec(self, bytes: &[u8]) -> Vec<u8>
        requires { length bytes.now ≤ self }
        ensures { result.items ≡ bytes.now }
    {
        let mut written = self.blank;
        let _ = written.extend_from_slice(bytes);
        written
    }
}

/// Paper for the pieces of so many bytes, a sheet for each. A contract sees it as the number of bytes. Bytes of one piece,
/// which are most, have no list of sheets.
#[derive(Drop)]
pub struct Sheets {
    pub(crate) size: u32,
    pub(crate) others: Vec<Paper>,
    pub(crate) last: Paper,
}

impl Model for Sheets {
    ghost use Rattle.std.specs.Prelude.{ℕ};
    ghost use Rattle.crl_outbox.specs.Stacks.{AreSheets};

    ghost Value = { ℕ };

    ghost view = { λ s. s.size };

    ghost invariant = { λ s. AreSheets s.size s.others.items s.last };
}

/// So many sheets for pieces of bytes of this size.
fn stack(alloc: Global, size: u32, number: u32) -> Result<Vec<Paper>, OutOfMemory>
    ensures { IfOk result (λ sheets. IsStack size number sheets.items) }
{
    let room = size.min(PIECE_LEN) as usize;
    let mut sheets = Vec::with_capacity(alloc, number as usize)?;
    for _ in 0..number {
        sheets.push(Paper::new(alloc, room)?)?;
    }
    Ok(sheets)
}

impl Sheets {
    /// Paper for the pieces of so many bytes.
    ///
    /// # Errors
    ///
    /// `OutOfMemory`.
    pub fn new(alloc: Global, size: u32) -> Result<Sheets, OutOfMemory>
        ensures { IfOk result (λ sheets. sheets ≡ size) }
    {
        let others = stack(alloc, size, count(size) - 1)?;
        let last = Paper::new(alloc, size.min(PIECE_LEN) as usize)?;
        Ok(Sheets { size, others, last })
    }

    /// The number of pieces.
    pub fn pieces(&self) -> u32
        ensures { result ≡ pieces.count self.now }
    {
        count(self.size)
    }
}
