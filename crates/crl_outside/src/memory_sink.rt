//! Sinks that keep their bytes in memory, or nowhere.
ghost use Rattle.std.specs.Prelude.{◌≡◌, ◌<◌, ◌≤◌, ◌+◌, ◌-◌, ◌^◌, ◌↔◌, [], length, min, IfOk, IsErr, OnOk};
ghost use Rattle.std.specs.Io.{WritesAtMost};
ghost use Rattle.std.specs.Io.KnownBytes.{WriteAppends};
ghost use Rattle.crl_outside.specs.Faults.{HasCause};

use crate::Failed;
use crate::sink::Sink;
use crl_model::OutOfMemory;
use std::alloc::Global;
use std::marker::Model;

/// Takes up to `room` bytes in all, and fails at each later push of a piece that isn't empty. A
/// contract sees it as a `Taking`.
#[derive(Debug, Drop)]
pub struct MemorySink {
    bytes: Vec<u8>,
    room: usize,
    faults: u64,
}

impl Model for MemorySink {
    ghost use Rattle.std.specs.Prelude.{◌≤◌, length, vec_capacity};
    ghost use Rattle.crl_outside.specs.Memory.{Taking};

    ghost Value = { Taking };

    ghost view = { λ s. record { held = s.bytes.items; room = s.room; faults = s.faults } };

    ghost invariant = { λ s. (length s.bytes.items ≤ s.room) × (s.room ≤ vec_capacity s.bytes) };
}

impl MemorySink {
    /// A sink that holds nothing. It takes the memory for its room here, so that pushes take none.
    ///
    /// # Errors
    ///
    /// `OutOfMemory`.
    pub fn new(alloc: Global, room: usize) -> Result<MemorySink, OutOfMemory>
        ensures { IfOk result (λ s. s ≡ record { held = []; room = room; faults = 0 }) }
    {
        Ok(MemorySink {
            bytes: Vec::with_capacity(alloc, room)?,
            room,
            faults: 0,
        })
    }

    /// The bytes that it took.
    pub fn held(&self) -> &[u8]
        ensures { result.now ≡ self.now.held }
    {
        self.bytes.as_slice()
    }
}

impl Sink for MemorySink {
    ghost use Rattle.std.specs.Prelude.{Some};

    ghost held = { λ s. Some s.held };

    ghost faults = { λ s. s.faults };

    fn push(&mut self, piece: &[u8]) -> Result<usize, Failed>
        ensures bound { WritesAtMost result piece.now }
        ensures some { 0 < length piece.now → IfOk result (λ n. 0 < n) }
        ensures bytes { WriteAppends (Some self.old.held) (Some self.new.held) result piece.now }
        ensures cause { HasCause self.old.faults self.new.faults result }

        // As many bytes as there is room for, and a fault only where there is none.
        ensures exact { IfOk result (λ n.
            n ≡ min (length piece.now) (self.old.room - length self.old.held)) }
        ensures full { IsErr result ↔
            (0 < length piece.now) × (self.old.room ≡ length self.old.held) }
        ensures unfailed { OnOk result (self.new.faults ≡ self.old.faults) }
        ensures same { self.new.room ≡ self.old.room }
    {
        if piece.is_empty() {
            return Ok(0);
        }
        let count = piece.len().min(self.room - self.bytes.len());
        if count == 0 || self.bytes.extend_from_slice(&piece[..count]).is_err() {
            self.faults = self.faults.saturating_add(1);
            return Err(Failed);
        }
        Ok(count)
    }
}

/// Takes each piece whole, keeps nothing and never fails: it doesn't tell the bytes that it holds,
/// and its count of faults is the constant 0.
#[derive(Clone, Copy, Debug)]
pub struct NullSink;

impl Sink for NullSink {
    ghost use Rattle.std.specs.Prelude.{None};

    ghost held = { λ _. None };

    ghost faults = { λ _. 0 };

    fn push(&mut self, piece: &[u8]) -> Result<usize, Failed> {
        Ok(piece.len())
    }
}
