//! The orders of the steps of a run: which of the choices each turn takes.
#![tactic(auto)]

mod order;
mod picks;
mod seeded;
#[cfg(test)]
mod tests;

pub use order::Order;
pub use picks::Picks;
pub use seeded::Seeded;
