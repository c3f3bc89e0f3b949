//! The guards of open sections. A guard is not let go by itself: it is spent at the end of its section,
//! or discarded.
ghost use Rattle.std.specs.Prelude.{◌≡◌, ◌+◌, ◌≤◌, List, ℕ, length};
ghost use Rattle.std.specs.Borrow.{sem};
ghost use Rattle.std.specs.List.{refill};
ghost use Rattle.crl_model.specs.Patches.{put_at};
ghost use Rattle.crl_guard.specs.GuardWrites.{guard_with};

use crl_model::NodeNo;
use crl_model::bytes::Bytes;
use crl_model::name::Name;
use std::marker::Model;

/// The guard of a read section, with the bytes that it shows. In a clause it is a `Guard`.
pub struct Reading {
    bytes: Bytes,
    node: NodeNo,
    name: Name,
    number: u64,
}

impl Model for Reading {
    ghost use Rattle.crl_model.specs.Guards.{Guard};

    ghost Value = { Guard };

    ghost view = { λ g. record { node = g.node; name = g.name; number = g.number; bytes = g.bytes } };
}

impl Reading {
    /// The guard of this section of a node, which shows these bytes.
    pub fn new(bytes: Bytes, node: NodeNo, name: Name, number: u64) -> Reading
        ensures { result ≡ record { node = node; name = name; number = number; bytes = bytes } }
    {
        Reading {
            bytes,
            node,
            name,
            number,
        }
    }

    /// The node.
    pub fn node(&self) -> NodeNo
        ensures { result ≡ self.now.node }
    {
        self.node
    }

    /// The name of the region.
    pub fn name(&self) -> Name
        ensures { result ≡ self.now.name }
    {
        self.name
    }

    /// The number of the section, by the node's count.
    pub fn number(&self) -> u64
        ensures { result ≡ self.now.number }
    {
        self.number
    }

    /// The bytes.
    pub fn bytes(&self) -> &[u8]
        ensures { result.now ≡ self.now.bytes }
    {
        self.bytes.as_slice()
    }

    /// The bytes, which are moved and not copied. The guard is spent.
    pub fn into_bytes(self) -> Bytes
        ensures { result ≡ self.bytes }
    {
        let Reading {
            bytes,
            node: _,
            name: _,
            number: _,
        } = self;
        bytes
    }

    /// Spends the guard.
    pub fn discard(self) {
        drop(self.into_bytes());
    }
}

/// The guard of a write section, with the bytes that are written. In a clause it is a `Guard`.
pub struct Writing {
    items: Vec<u8>,
    node: NodeNo,
    name: Name,
    number: u64,
}

impl Model for Writing {
    ghost use Rattle.crl_model.specs.Guards.{Guard};

    ghost Value = { Guard };

    ghost view = { λ g. record { node = g.node; name = g.name; number = g.number; bytes = g.items.items } };
}

impl Writing {
    ghost use Rattle.crl_guard.specs.GuardWrites.{LendsGuard};

    /// The guard of this section of a node, which begins with these bytes.
    pub fn new(items: Vec<u8>, node: NodeNo, name: Name, number: u64) -> Writing
        ensures { result ≡ record { node = node; name = name; number = number; bytes = items.items } }
    {
        Writing {
            items,
            node,
            name,
            number,
        }
    }

    /// The node.
    pub fn node(&self) -> NodeNo
        ensures { result ≡ self.now.node }
    {
        self.node
    }

    /// The name of the region.
    pub fn name(&self) -> Name
        ensures { result ≡ self.now.name }
    {
        self.name
    }

    /// The number of the section, by the node's count.
    pub fn number(&self) -> u64
        ensures { result ≡ self.now.number }
    {
        self.number
    }

    /// The bytes.
    pub fn bytes(&self) -> &[u8]
        ensures { result.now ≡ self.now.bytes }
    {
        self.items.as_slice()
    }

    /// The bytes, to be written.
    pub fn bytes_mut(&mut self) -> &mut [u8]
        ensures* writes_back { sem 𝓛 (LendsGuard self.entry result) }
        ensures value { result.now ≡ self.old.bytes }
        ensures same_len { (ws : List ℕ) → length ws ≡ length self.old.bytes → refill (length self.old.bytes) self.old.bytes ws ≡ ws }
    {
        self.items.as_mut_slice()
    }

    /// Puts these bytes in the place of as many from `offset` on.
    pub fn put(&mut self, offset: usize, bytes: &[u8])
        requires { offset + length bytes.now ≤ length self.old.bytes }
        ensures { self.new ≡ guard_with self.old (put_at offset bytes.now self.old.bytes) }
    {
        put_into(self.items.as_mut_slice(), offset, bytes);
    }

    /// The bytes, which are moved and not copied. The guard is spent.
    pub fn into_bytes(self) -> Bytes
        ensures { result ≡ self.bytes }
    {
        let Writing {
            items,
            node: _,
            name: _,
            number: _,
        } = self;
        Bytes::from_vec(items)
    }

    /// Spends the guard. What was written is lost.
    pub fn discard(self) {
        drop(self.into_bytes());
    }
}

/// Puts these bytes into the slice from `offset` on.
fn put_into(items: &mut [u8], offset: usize, bytes: &[u8])
    requires { offset + length bytes.now ≤ length items.old }
    ensures { items.new ≡ put_at offset bytes.now items.old }
{
    let end = offset + bytes.len();
    items[offset..end].copy_from_slice(bytes);
}
