//! Guards that a node holds.
ghost use Rattle.std.specs.Prelude.{◌≡◌, ◌+◌, ◌≤◌, true, false, length};
ghost use Rattle.crl_model.specs.Patches.{put_at};
ghost use Rattle.crl_protocol.specs.Chosen.{with_sum};
ghost use Rattle.crl_run.specs.Holding.{given, guard_in, with_bytes_in};

use crate::guards::{Reading, Writing};
use crl_model::name::Name;

/// A guard of an open section.
pub enum Held {
    Read(Reading),
    Write(Writing),
}

impl Held {
    /// The name of its region.
    pub fn name(&self) -> Name
        ensures { result ≡ (guard_in self.now).name }
    {
        match self {
            Held::Read(guard) => guard.name(),
            Held::Write(guard) => guard.name(),
        }
    }

    /// The guard of a read section.
    pub fn into_reading(self) -> Reading
        requires { (given self).write ≡ false }
        ensures { guard_in self ≡ result }
    {
        match self {
            Held::Read(guard) => guard,
            Held::Write(guard) => {
                guard.discard();
                unreachable!()
            }
        }
    }

    /// The guard of a write section.
    pub fn into_writing(self) -> Writing
        requires { (given self).write ≡ true }
        ensures { guard_in self ≡ result }
    {
        match self {
            Held::Read(guard) => {
                guard.discard();
                unreachable!()
            }
            Held::Write(guard) => guard,
        }
    }

    /// Puts these bytes into a write section, from `offset` on.
    pub(crate) fn put(&mut self, offset: usize, bytes: &[u8])
        requires write { (given self.old).write ≡ true }
        requires range { offset + length bytes.now ≤ length (guard_in self.old).bytes }
        ensures { given self.new ≡ with_bytes_in (given self.old) (put_at offset bytes.now (guard_in self.old).bytes) }
    {
        match self {
            Held::Read(_) => unreachable!(),
            Held::Write(guard) => put_into(guard.bytes_mut(), offset, bytes),
        }
    }

    /// Adds to the eight bytes of a write section from `offset` on.
    pub(crate) fn add(&mut self, offset: usize, number: u64)
        requires write { (given self.old).write ≡ true }
        requires range { offset + 8 ≤ length (guard_in self.old).bytes }
        ensures { given self.new ≡ with_bytes_in (given self.old) (with_sum offset number (guard_in self.old).bytes) }
    {
        match self {
            Held::Read(_) => unreachable!(),
            Held::Write(guard) => add_into(guard.bytes_mut(), offset, number),
        }
    }
}

impl Drop for Held {
    fn drop(self) {
        match self {
            Held::Read(guard) => guard.discard(),
            Held::Write(guard) => guard.discard(),
        }
    }
}

/// Puts these bytes into the slice from `offset` on.
fn put_into(items: &mut [u8], offset: usize, bytes: &[u8])
    requires { offset + length bytes.now ≤ length items.old }
    ensures { items.new ≡ put_at offset bytes.now items.old }
{
    let end = offset + bytes.len();
    items[offset..end].copy_from_slice(bytes);
}

/// Adds to the number whose eight bytes stand in the slice from `offset` on, the highest first, modulo 2^64.
fn add_into(items: &mut [u8], offset: usize, number: u64)
    requires { offset + 8 ≤ length items.old }
    ensures { items.new ≡ with_sum offset number items.old }
{
    let mut word = [0; 8];
    word.copy_from_slice(&items[offset..offset + 8]);
    let sum = u64::from_be_bytes(word).wrapping_add(number);
    put_into(items, offset, sum.to_be_bytes().as_slice());
}
