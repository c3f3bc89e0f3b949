//! Raw bytes of fixed length.
ghost use Rattle.std.specs.Prelude.{◌≡◌, ◌+◌, ◌<◌, ◌≤◌, ◌++◌, List, [], ℕ, IfOk, length, replicate};
ghost use Rattle.std.specs.Borrow.{sem};
ghost use Rattle.std.specs.List.{refill};

use crate::block::{Right, Row, Start, free, reserve};
use crl_model::OutOfMemory;
use std::alloc::Global;
use std::marker::Model;

/// Raw bytes of fixed length, at least one. In a clause it is their list. It takes their length in
/// memory and no more than a few words beside it. It may be moved to another thread, and shared by
/// threads.
pub struct Pane {
    start: Start<u8>,
    len: u32,
    row: Row<u8>,
    right: Right<u8, Global>,
    alloc: Global,
}

impl Model for Pane {
    ghost use Rattle.std.specs.Prelude.{List, ℕ};

    ghost Value = { List ℕ };

    ghost use Rattle.crl_pane.specs.Panes.{pane_bytes, IsPane};

    ghost view = { pane_bytes };

    ghost invariant = { IsPane };
}

/// Writes zero to each place of an empty row.
fn fill_zeros(start: Start<u8>, len: usize, row: &mut Row<u8>)
    requires { (start.ptr ≡ row.old.at) × (row.old.items ≡ []) × (row.old.left ≡ len) }
    ensures { (row.new.at ≡ row.old.at) × (row.new.items ≡ replicate len 0) × (row.new.left ≡ 0) }
{
    let mut i = 0;
    while i < len {
        row.push(start, i, 0);
        i += 1;
    }
}

/// Writes the bytes to an empty row.
fn fill_copy(start: Start<u8>, bytes: &[u8], row: &mut Row<u8>)
    requires { (start.ptr ≡ row.old.at) × (row.old.items ≡ []) × (row.old.left ≡ length bytes.now) }
    ensures { (row.new.at ≡ row.old.at) × (row.new.items ≡ bytes.now) × (row.new.left ≡ 0) }
{
    let mut i = 0;
    while i < bytes.len() {
        row.push(start, i, bytes[i]);
        i += 1;
    }
}

impl Pane {
    ghost use Rattle.crl_pane.specs.PaneLends.{LendsBytes};

    /// So many zeros.
    ///
    /// # Errors
    ///
    /// `OutOfMemory`.
    pub fn new(alloc: Global, len: u32) -> Result<Pane, OutOfMemory>
        requires { 0 < len }
        ensures { IfOk result (λ pane. pane ≡ replicate len 0) }
    {
        let (start, mut row, right) = reserve::<u8, Global>(&alloc, len as usize)?;
        fill_zeros(start, len as usize, &mut row);
        Ok(Pane {
            start,
            len,
            row,
            right,
            alloc,
        })
    }

    /// The same bytes in a pane of their own.
    ///
    /// # Errors
    ///
    /// `OutOfMemory`.
    pub fn copy_of(alloc: Global, pane: &Pane) -> Result<Pane, OutOfMemory>
        ensures { IfOk result (λ copy. copy ≡ pane.now) }
    {
        let len = pane.len();
        let (start, mut row, right) = reserve::<u8, Global>(&alloc, len as usize)?;
        fill_copy(start, pane.bytes(), &mut row);
        Ok(Pane {
            start,
            len,
            row,
            right,
            alloc,
        })
    }

    /// The number of bytes.
    pub fn len(&self) -> u32
        ensures len { result ≡ length self.now }
        ensures some { 0 < result }
    {
        self.len
    }

    /// The bytes.
    pub fn bytes(&self) -> &[u8]
        ensures { result.now ≡ self.now }
    {
        self.row.slice(self.start, self.len as usize)
    }

    /// The bytes, to be written.
    pub fn bytes_mut(&mut self) -> &mut [u8]
        ensures* writes_back { sem 𝓛 (LendsBytes self.entry result) }
        ensures value { result.now ≡ self.old }
        ensures same_len { (ws : List ℕ) → length ws ≡ length self.old → refill (length self.old) self.old ws ≡ ws }
    {
        self.row.slice_mut(self.start, self.len as usize)
    }
}

impl Drop for Pane {
    fn drop(self) {
        let Pane {
            start,
            len,
            row,
            right,
            alloc,
        } = self;
        unsafe {
            free(&alloc, start, len as usize, row, right);
        }
    }
}
