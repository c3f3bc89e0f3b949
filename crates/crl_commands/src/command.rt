//! What words may ask for.

use crl_model::NodeNo;
use crl_order::Order;

/// What the words ask for.
#[derive(Drop)]
pub enum Command {
    /// `order first`, `order picks LIST`, `order seed N`: runs a script under an order.
    Order(Order),
    /// `check NODES`: judges an account of so many nodes, 1 to 64.
    Check(NodeNo),
    /// `gen SEED NODES REGIONS ROUNDS`: prints the script that a seed makes.
    Gen(Recipe),
    /// `summary SEED NODES REGIONS ROUNDS`: runs it under the order of the seed, and prints one line.
    Summary(Recipe),
    /// `threads WORKERS`: runs a script by so many threads, 1 to 16.
    Threads(u16),
}

/// What a script is made from.
#[derive(Clone, Copy, Debug, PartialEq, Eq)]
pub struct Recipe {
    pub seed: u64,
    pub nodes: NodeNo,
    pub regions: u16,
    pub rounds: u32,
}
