//! The pieces of bytes that come in any order.
ghost use Rattle.std.specs.Prelude.{◌≡◌, ◌<◌, ◌^◌, not, true, false, IfOk, length, replicate};
ghost use Rattle.std.specs.List.{list_all};
ghost use Rattle.crl_pieces.specs.Pieces.{piece_size, nothing_came, is_missing, with_piece, is_complete, joined};
ghost use Rattle.crl_pieces.specs.Pieces as pieces;

use crate::PIECE_LEN;
use crate::parts::count;
use crl_model::OutOfMemory;
use crl_model::bytes::Bytes;
use std::alloc::Global;
use std::marker::Model;

/// The pieces of bytes that came so far. Only `new` takes memory. A contract sees it as a `Gathering`: the
/// number of bytes, and by index the pieces that came.
#[derive(Debug, Drop)]
pub struct Gather {
    whole: Bytes,
    came: Vec<bool>,
    ghost number: { length came.items ≡ pieces.count (length whole) },
    ghost small: { length whole < 2 ^ 32 },
}

impl Model for Gather {
    ghost use Rattle.std.specs.Prelude.{length};
    ghost use Rattle.crl_pieces.specs.Gathering.{Gathering, slots_of};

    ghost Value = { Gathering };

    ghost view = { λ g. record { size = length g.whole; slots = slots_of g.came.items g.whole } };
}

fn none_came(alloc: Global, pieces: usize) -> Result<Vec<bool>, OutOfMemory>
    ensures { IfOk result (λ came. came.items ≡ replicate pieces false) }
{
    vec![in alloc; false; pieces]
}

/// Whether all are true.
fn all_came(came: &[bool]) -> bool
    ensures { result ≡ list_all (λ came. came) came.now }
{
    came.iter().all(|came| *came)
}

impl Gather {
    /// No piece yet of so many bytes. It takes the memory for all of them.
    ///
    /// # Errors
    ///
    /// `OutOfMemory`.
    pub fn new(alloc: Global, size: u32) -> Result<Gather, OutOfMemory>
        ensures { IfOk result (λ g. g ≡ record { size = size; slots = nothing_came (pieces.count size) }) }
    {
        let whole = Bytes::zeros(alloc, size as usize)?;
        let came = none_came(alloc, count(size) as usize)?;
        Ok(Gather { whole, came })
    }

    /// The number of bytes of the whole.
    pub fn size(&self) -> u32
        ensures { result ≡ self.now.size }
    {
        self.whole.len() as u32
    }

    /// Whether the piece is one of the whole and didn't come.
    pub fn is_missing(&self, index: u32) -> bool
        ensures { result ≡ is_missing index self.now.slots }
    {
        let index = index as usize;
        index < self.came.len() && !self.came[index]
    }

    /// Whether the piece, which is one of the whole, came.
    pub fn has(&self, index: u32) -> bool
        requires { index < length self.now.slots }
        ensures { result ≡ not (is_missing index self.now.slots) }
    {
        self.came[index as usize]
    }

    /// Adds a piece that is missing. True exactly if no other is missing. This takes no memory.
    pub fn add(&mut self, index: u32, part: &[u8]) -> bool
        requires missing { is_missing index self.old.slots ≡ true }
        requires fits { length part.now ≡ piece_size self.old.size index }
        ensures added { self.new ≡ record self.old { slots = with_piece index part.now self.old.slots } }
        ensures last { result ≡ is_complete self.new.slots }
    {
        let start = index as usize * PIECE_LEN as usize;
        self.whole.put(start, part);
        self.came[index as usize] = true;
        self.is_complete()
    }

    /// Whether no piece is missing.
    pub fn is_complete(&self) -> bool
        ensures { result ≡ is_complete self.now.slots }
    {
        all_came(self.came.as_slice())
    }

    /// Puts the whole, of which no piece is missing, in the place of as many bytes.
    pub fn copy_to(&self, into: &mut [u8])
        requires complete { is_complete self.now.slots ≡ true }
        requires size { length into.old ≡ self.now.size }
        ensures { into.new ≡ joined self.now.slots }
    {
        into.copy_from_slice(self.whole.as_slice());
    }

    /// The whole, of which no piece is missing. Nothing is copied.
    pub fn into_whole(self) -> Bytes
        requires { is_complete self.slots ≡ true }
        ensures { result ≡ joined self.slots }
    {
        self.whole
    }
}
