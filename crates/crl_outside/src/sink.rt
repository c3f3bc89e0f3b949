//! Where bytes go to.
ghost use Rattle.std.specs.Prelude.{ℕ, List, ◌<◌, length, IfOk};
ghost use Rattle.std.specs.declared.option.Option.{Option};
ghost use Rattle.std.specs.Io.{WritesAtMost};
ghost use Rattle.std.specs.Io.KnownBytes.{WriteAppends};
ghost use Rattle.crl_outside.specs.Faults.{HasCause};

use crate::Failed;

/// Takes bytes and puts them behind those that it holds.
pub trait Sink {
    /// The bytes that it holds, where the sink tells them.
    ghost held: { Self → Option (List ℕ) };

    /// The count of its faults. It never falls, rises if a push fails, and stays if it takes.
    ghost faults: { Self → ℕ };

    /// Takes a first part of the piece, and says how many bytes that is: at least 1, unless the
    /// piece is empty.
    ///
    /// # Errors
    ///
    /// `Failed`: the sink couldn't take. It holds what it held, and the count of faults rose or
    /// stands at 2^64 - 1.
    fn push(&mut self, piece: &[u8]) -> Result<usize, Failed>
        ensures bound { WritesAtMost result piece.now }
        ensures some { 0 < length piece.now → IfOk result (λ n. 0 < n) }
        ensures bytes { WriteAppends (held self.old) (held self.new) result piece.now }
        ensures cause { HasCause (faults self.old) (faults self.new) result };
}
