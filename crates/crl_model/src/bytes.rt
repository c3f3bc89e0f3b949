//! Lists of bytes.
ghost use Rattle.std.specs.Prelude.{◌≡◌, ◌+◌, ◌≤◌, IfOk, IsTrue, ◌↔◌, length, replicate};
ghost use Rattle.crl_model.specs.Patches.{put_at};

use crate::OutOfMemory;
use std::alloc::Global;
use std::marker::Model;

/// A list of bytes of fixed length: a region's, a section's or a broadcast's.
#[derive(Debug, Drop)]
pub struct Bytes {
    items: Vec<u8>,
}

impl Model for Bytes {
    ghost use Rattle.std.specs.Prelude.{List, ℕ};

    ghost Value = { List ℕ };

    ghost view = { λ b. b.items.items };
}

impl Bytes {
    /// An equal list.
    ///
    /// # Errors
    ///
    /// `OutOfMemory`.
    pub fn copy_of(alloc: Global, bytes: &[u8]) -> Result<Bytes, OutOfMemory>
        ensures { IfOk result (λ b. b ≡ bytes.now) }
    {
        Ok(Bytes {
            items: Vec::from_slice(alloc, bytes)?,
        })
    }

    /// So many zeros.
    ///
    /// # Errors
    ///
    /// `OutOfMemory`.
    pub fn zeros(alloc: Global, len: usize) -> Result<Bytes, OutOfMemory>
        ensures { IfOk result (λ b. b ≡ replicate len 0) }
    {
        Ok(Bytes {
            items: vec![in alloc; 0; len]?,
        })
    }

    /// The list of a vector, which is taken over and not copied.
    pub fn from_vec(items: Vec<u8>) -> Bytes
        ensures { result ≡ items.items }
    {
        Bytes { items }
    }

    /// The bytes.
    pub fn as_slice(&self) -> &[u8]
        ensures { result.now ≡ self.now }
    {
        self.items.as_slice()
    }

    /// The number of bytes.
    pub fn len(&self) -> usize
        ensures { result ≡ length self.now }
    {
        self.items.len()
    }

    /// Whether there is no byte.
    pub fn is_empty(&self) -> bool
        ensures { IsTrue result ↔ (length self.now ≡ 0) }
    {
        self.items.is_empty()
    }

    /// Puts these bytes, of the same length, in the place of the old ones.
    pub fn overwrite(&mut self, bytes: &[u8])
        requires { length self.old ≡ length bytes.now }
        ensures { self.new ≡ bytes.now }
    {
        self.items.as_mut_slice().copy_from_slice(bytes);
    }

    /// Puts these bytes in the place of as many from `offset` on.
    pub fn put(&mut self, offset: usize, bytes: &[u8])
        requires { offset + length bytes.now ≤ length self.old }
        ensures { self.new ≡ put_at offset bytes.now self.old }
    {
        put_into(self.items.as_mut_slice(), offset, bytes);
    }
}

/// Puts these bytes into the slice from `offset` on.
fn put_into(items: &mut [u8], offset: usize, bytes: &[u8])
    requires { offset + length bytes.now ≤ length items.old }
    ensures { items.new ≡ put_at offset bytes.now items.old }
{
    let end = offset + bytes.len();
    items[offset..end].copy_from_slice(bytes);
}

impl PartialEq for Bytes {
    ghost use Rattle.std.specs.Prelude.{nat_eq};
    ghost use Rattle.std.specs.Cmp.{partial_equiv_from_equiv};
    ghost use Rattle.std.specs.Cmp.Lexicographic.{pointwise, nat_list_eq_equiv};

    ghost eq = { pointwise nat_eq };

    ghost laws = { partial_equiv_from_equiv nat_list_eq_equiv };

    fn eq(&self, other: &Bytes) -> bool {
        self.items == other.items
    }
}
