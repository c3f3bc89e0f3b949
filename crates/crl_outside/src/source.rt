//! Where bytes come from.
ghost use Rattle.std.specs.Prelude.{ℕ, List};
ghost use Rattle.std.specs.declared.option.Option.{Option};
ghost use Rattle.std.specs.Io.{ReadsAtMost};
ghost use Rattle.std.specs.Io.KnownBytes.{ReadConsumes};
ghost use Rattle.crl_outside.specs.Faults.{HasCause};

use crate::Failed;

/// Gives bytes, in order, until its end.
pub trait Source {
    /// The bytes that are left, where the source tells them.
    ghost left: { Self → Option (List ℕ) };

    /// The count of its faults. It never falls, rises if a pull fails, and stays if it gives.
    ghost faults: { Self → ℕ };

    /// Takes the first bytes that are left into the front of `into`, and says how many. That is
    /// at most the length of `into`, and 0 only at the end, or where `into` is empty.
    ///
    /// # Errors
    ///
    /// `Failed`: the source couldn't give. Nothing was taken, and the count of faults rose or
    /// stands at 2^64 - 1.
    fn pull(&mut self, into: &mut [u8]) -> Result<usize, Failed>
        ensures bound { ReadsAtMost result into.new }
        ensures bytes { ReadConsumes (left self.old) (left self.new) result into.new }
        ensures cause { HasCause (faults self.old) (faults self.new) result };
}
