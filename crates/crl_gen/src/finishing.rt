//! That the scripts that are made always finish.
ghost use Rattle.std.specs.Prelude.{ℕ};
ghost use Rattle.crl_gen.specs.Finishing.{MadeFinishes};

/// Whatever the words: the sections of the script aren't nested, and each node comes to two rounds, its barriers. So every
/// run of it finishes.
pub fn made_scripts_finish()
    ensures { (words : ℕ → ℕ) (nodes regions rounds : ℕ) → MadeFinishes words nodes regions rounds }
{}
