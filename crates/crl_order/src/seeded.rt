//! Words of a seed.
ghost use Rattle.std.specs.Prelude.{◌≡◌};
ghost use Rattle.crl_order.specs.Words.{generator_of_seed, word_given, generator_after};

use rand_core::SeedableRng;
use rand_core::utils::NextWord;
use rand_pcg::Lcg64Xsh32;
use std::marker::Model;

/// The words of 32 bits of the generator `Lcg64Xsh32`. A contract sees the generator.
#[derive(Drop)]
pub struct Seeded {
    generator: Lcg64Xsh32,
}

impl Model for Seeded {
    ghost use Rattle.rand_pcg.specs.Lcg.{Lcg};

    ghost Value = { Lcg };

    ghost view = { λ s. s.generator };
}

impl Seeded {
    /// The generator that this seed begins.
    pub fn new(seed: u64) -> Seeded
        ensures { result ≡ generator_of_seed seed }
    {
        Seeded {
            generator: Lcg64Xsh32::seed_from_u64(seed),
        }
    }

    /// The next word.
    pub fn next_word(&mut self) -> u32
        ensures word { result ≡ word_given self.old }
        ensures rest { self.new ≡ generator_after self.old }
    {
        self.generator.next_word()
    }
}
