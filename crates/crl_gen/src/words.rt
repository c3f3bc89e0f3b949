//! The words of a seed, in order.
ghost use Rattle.std.specs.Prelude.{◌≡◌, ◌+◌, ◌<◌, ◌^◌, suc};
ghost use Rattle.crl_order.specs.Words.{words_of_seed};

use crl_order::Seeded;
use std::marker::Model;

/// The words of 32 bits that a seed gives, in order. A contract sees the seed and how many words were given.
#[derive(Drop)]
pub struct Words {
    seed: u64,
    given: u64,
    seeded: Seeded,
}

impl Model for Words {
    ghost use Rattle.std.specs.Prelude.{◌≡◌};
    ghost use Rattle.rand_pcg.specs.Lcg.{advance};
    ghost use Rattle.rand_pcg.specs.Pcg.{multiplier_64};
    ghost use Rattle.crl_order.specs.Words.{generator_of_seed};
    ghost use Rattle.crl_gen.specs.WordsGiven.{WordsGiven};

    ghost Value = { WordsGiven };

    ghost view = { λ w. record { seed = w.seed; given = w.given } };

    ghost invariant = { λ w. w.seeded ≡ advance 64 multiplier_64 w.given (generator_of_seed w.seed) };
}

impl Words {
    /// The words of this seed. None was given.
    pub fn new(seed: u64) -> Words
        ensures { result ≡ record { seed = seed; given = 0 } }
    {
        Words {
            seed,
            given: 0,
            seeded: Seeded::new(seed),
        }
    }

    /// The next word.
    pub fn next(&mut self) -> u32
        requires { self.old.given + 1 < 2 ^ 64 }
        ensures word { result ≡ words_of_seed self.old.seed (suc self.old.given) }
        ensures rest { self.new ≡ record self.old { given = self.old.given + 1 } }
    {
        self.given += 1;
        self.seeded.next_word()
    }
}
