//! The guards of open sections. A guard is not let go by itself: it is spent at the end of its section,
//! or discarded.
ghost use Rattle.std.specs.Prelude.{◌≡◌, List, ℕ, length};
ghost use Rattle.std.specs.Borrow.{sem};
ghost use Rattle.std.specs.List.{refill};
ghost use Rattle.std.specs.Arc.{arc_value};

use crate::pane::Pane;
use crl_model::NodeNo;
use crl_model::name::Name;
use std::alloc::Global;
use std::marker::Model;
use std::sync::Arc;

/// The guard of a read section. It shares its pane with the handlers of its node: one that has other
/// bytes to put in place puts another pane there, and the guard keeps this one.
pub struct Reading {
    pane: Arc<Pane, Global>,
    node: NodeNo,
    name: Name,
    number: u64,
}

impl Model for Reading {
    ghost use Rattle.std.specs.Arc.{arc_value};
    ghost use Rattle.crl_model.specs.Guards.{Guard};

    ghost Value = { Guard };

    ghost view = { λ g. record { node = g.node; name = g.name; number = g.number; bytes = arc_value g.pane } };
}

impl Reading {
    /// The guard of this section of a node, which shows the pane's bytes.
    pub fn new(pane: Arc<Pane, Global>, node: NodeNo, name: Name, number: u64) -> Reading
        ensures { result ≡ record { node = node; name = name; number = number; bytes = arc_value pane } }
    {
        Reading {
            pane,
            node,
            name,
            number,
        }
    }

    /// The node.
    pub fn node(&self) -> NodeNo
        ensures { result ≡ self.now.node }
    {
        self.node
    }

    /// The name of the region.
    pub fn name(&self) -> Name
        ensures { result ≡ self.now.name }
    {
        self.name
    }

    /// The number of the section, by the node's count.
    pub fn number(&self) -> u64
        ensures { result ≡ self.now.number }
    {
        self.number
    }

    /// The bytes.
    pub fn bytes(&self) -> &[u8]
        ensures { result.now ≡ self.now.bytes }
    {
        self.pane.bytes()
    }

    /// Spends the guard.
    pub fn discard(self) {
        let Reading {
            pane,
            node: _,
            name: _,
            number: _,
        } = self;
        drop(pane);
    }
}

/// The guard of a write section. The pane is its own.
pub struct Writing {
    pane: Pane,
    node: NodeNo,
    name: Name,
    number: u64,
}

impl Model for Writing {
    ghost use Rattle.crl_model.specs.Guards.{Guard};

    ghost Value = { Guard };

    ghost view = { λ g. record { node = g.node; name = g.name; number = g.number; bytes = g.pane } };
}

impl Writing {
    ghost use Rattle.crl_pane.specs.GuardLends.{LendsWriting};

    /// The guard of this section of a node, with its own pane.
    pub fn new(pane: Pane, node: NodeNo, name: Name, number: u64) -> Writing
        ensures { result ≡ record { node = node; name = name; number = number; bytes = pane } }
    {
        Writing {
            pane,
            node,
            name,
            number,
        }
    }

    /// The node.
    pub fn node(&self) -> NodeNo
        ensures { result ≡ self.now.node }
    {
        self.node
    }

    /// The name of the region.
    pub fn name(&self) -> Name
        ensures { result ≡ self.now.name }
    {
        self.name
    }

    /// The number of the section, by the node's count.
    pub fn number(&self) -> u64
        ensures { result ≡ self.now.number }
    {
        self.number
    }

    /// The bytes.
    pub fn bytes(&self) -> &[u8]
        ensures { result.now ≡ self.now.bytes }
    {
        self.pane.bytes()
    }

    /// The bytes, to be written.
    pub fn bytes_mut(&mut self) -> &mut [u8]
        ensures* writes_back { sem 𝓛 (LendsWriting self.entry result) }
        ensures value { result.now ≡ self.old.bytes }
        ensures same_len { (ws : List ℕ) → length ws ≡ length self.old.bytes → refill (length self.old.bytes) self.old.bytes ws ≡ ws }
    {
        self.pane.bytes_mut()
    }

    /// The pane. The guard is spent.
    pub fn into_pane(self) -> Pane
        ensures { result ≡ self.bytes }
    {
        let Writing {
            pane,
            node: _,
            name: _,
            number: _,
        } = self;
        pane
    }

    /// Spends the guard. What was written is lost.
    pub fn discard(self) {
        drop(self.into_pane());
    }
}
