//! Sources over bytes in memory.
ghost use Rattle.std.specs.Prelude.{◌≡◌, ◌<◌, ◌≤◌, ◌+◌, ◌-◌, ◌^◌, ◌↔◌, [], length, min, Contains, IfOk, IsErr, Ok, OnOk};
ghost use Rattle.std.specs.Io.{ReadsAtMost};
ghost use Rattle.std.specs.Io.KnownBytes.{ReadConsumes};
ghost use Rattle.crl_outside.specs.Faults.{HasCause};

use crate::Failed;
use crate::source::Source;
use crl_model::bytes::Bytes;
use std::marker::Model;

/// Gives as many bytes as fit, and never fails: its count of faults is the constant 0. A contract
/// sees it as the bytes that are left.
#[derive(Debug, Drop)]
pub struct SafeSource {
    bytes: Bytes,
    given: usize,
}

impl Model for SafeSource {
    ghost use Rattle.std.specs.Prelude.{List, ℕ, ◌≤◌, drop, length};

    ghost Value = { List ℕ };

    ghost view = { λ s. drop s.given s.bytes };

    ghost invariant = { λ s. s.given ≤ length s.bytes };
}

impl SafeSource {
    /// A source with these bytes left.
    pub fn new(bytes: Bytes) -> SafeSource
        ensures { result ≡ bytes }
    {
        SafeSource { bytes, given: 0 }
    }
}

impl Source for SafeSource {
    ghost use Rattle.std.specs.Prelude.{Some};

    ghost left = { λ s. Some s };

    ghost faults = { λ _. 0 };

    fn pull(&mut self, into: &mut [u8]) -> Result<usize, Failed>
        ensures exact { result ≡ Ok (min (length self.old) (length into.old)) }
        ensures bound { ReadsAtMost result into.new }
        ensures bytes { ReadConsumes (Some self.old) (Some self.new) result into.new }
        ensures cause { HasCause 0 0 result }
    {
        let count = (self.bytes.len() - self.given).min(into.len());
        let end = self.given + count;
        into[..count].copy_from_slice(&self.bytes.as_slice()[self.given..end]);
        self.given = end;
        Ok(count)
    }
}

/// Gives at most `step` bytes a pull, and fails at the pulls whose numbers, from 1, are listed. A
/// pull that failed can be tried again. A contract sees it as a `Giving`.
#[derive(Debug, Drop)]
pub struct MemorySource {
    bytes: SafeSource,
    step: usize,
    failing: Vec<u64>,
    calls: u64,
    faults: u64,
}

impl Model for MemorySource {
    ghost use Rattle.std.specs.Prelude.{◌<◌};
    ghost use Rattle.crl_outside.specs.Memory.{Giving};

    ghost Value = { Giving };

    ghost view = { λ s. record {
      left = s.bytes;
      step = s.step;
      failing = s.failing.items;
      calls = s.calls;
      faults = s.faults;
    } };

    ghost invariant = { λ s. 0 < s.step };
}

impl MemorySource {
    /// A source with these bytes left. None of its pulls was made yet.
    pub fn new(bytes: Bytes, step: usize, failing: Vec<u64>) -> MemorySource
        requires { 0 < step }
        ensures { result ≡ record {
          left = bytes;
          step = step;
          failing = failing.items;
          calls = 0;
          faults = 0;
        } }
    {
        MemorySource {
            bytes: SafeSource::new(bytes),
            step,
            failing,
            calls: 0,
            faults: 0,
        }
    }
}

impl Source for MemorySource {
    ghost use Rattle.std.specs.Prelude.{Some};

    ghost left = { λ s. Some s.left };

    ghost faults = { λ s. s.faults };

    fn pull(&mut self, into: &mut [u8]) -> Result<usize, Failed>
        ensures bound { ReadsAtMost result into.new }
        ensures bytes { ReadConsumes (Some self.old.left) (Some self.new.left) result into.new }
        ensures cause { HasCause self.old.faults self.new.faults result }

        // As many bytes as there are, fit and may go in one pull.
        ensures exact { IfOk result (λ n.
            n ≡ min (length self.old.left) (min (length into.old) self.old.step)) }

        // The pull's own number decides whether it fails.
        ensures fails { IsErr result ↔ Contains self.old.failing self.new.calls }
        ensures counts { self.new.calls ≡ min (self.old.calls + 1) (2 ^ 64 - 1) }
        ensures unfailed { OnOk result (self.new.faults ≡ self.old.faults) }
        ensures same { (self.new.step ≡ self.old.step) × (self.new.failing ≡ self.old.failing) }
    {
        self.calls = self.calls.saturating_add(1);
        if self.failing.contains(&self.calls) {
            self.faults = self.faults.saturating_add(1);
            return Err(Failed);
        }
        let room = into.len().min(self.step);
        self.bytes.pull(&mut into[..room])
    }
}
