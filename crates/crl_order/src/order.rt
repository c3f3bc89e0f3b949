//! Orders of steps.
ghost use Rattle.std.specs.Prelude.{◌≡◌, ◌<◌, ◌%◌, ℕ, suc, IfOk};
ghost use Rattle.crl_protocol.specs.Chosen.{pick_at};
ghost use Rattle.crl_order.specs.Words.{words_to_come, words_of_seed};

use crate::picks::Picks;
use crate::seeded::Seeded;
use crl_model::OutOfMemory;
use std::alloc::Global;

/// An order of steps: a word for each turn, counted from 1. A contract sees the words that are still to
/// come, as `words_to_come`.
#[derive(Drop)]
pub enum Order {
    /// Zeros: each turn takes the first choice.
    First,
    /// The words of a list, and then zeros.
    Picks(Picks),
    /// The words of a seed.
    Seed(Seeded),
}

impl Order {
    /// The order of these words.
    ///
    /// # Errors
    ///
    /// `OutOfMemory`.
    pub fn picks(alloc: Global, values: &[u32]) -> Result<Order, OutOfMemory>
        ensures { IfOk result (λ order. words_to_come order ≡ pick_at values.now) }
    {
        Ok(Order::Picks(Picks::new(alloc, values)?))
    }

    /// The order of a seed: the words of 32 bits that `Lcg64Xsh32::seed_from_u64(seed)` gives.
    pub fn seed(seed: u64) -> Order
        ensures { words_to_come result ≡ words_of_seed seed }
    {
        Order::Seed(Seeded::new(seed))
    }

    /// The place that the next word chooses among so many choices, from 0. It takes no memory.
    pub fn next(&mut self, count: u128) -> u128
        requires { 0 < count }
        ensures place { result ≡ words_to_come self.old 1 % count }
        ensures rest { (p : ℕ) → words_to_come self.new (suc p) ≡ words_to_come self.old (suc (suc p)) }
    {
        self.next_word() as u128 % count
    }

    /// The next word.
    fn next_word(&mut self) -> u32
        ensures word { result ≡ words_to_come self.old 1 }
        ensures rest { (p : ℕ) → words_to_come self.new (suc p) ≡ words_to_come self.old (suc (suc p)) }
    {
        match self {
            Order::First => 0,
            Order::Picks(picks) => picks.next_word(),
            Order::Seed(seeded) => seeded.next_word(),
        }
    }
}
