//! What is kept with a node.
ghost use Rattle.std.specs.Prelude.{ℕ, List, [], IfOk};
ghost use Rattle.crl_protocol.specs.Talk.{Heard};

use crl_model::{NodeNo, OutOfMemory};
use std::alloc::Global;

/// What goes with a node from hand to hand: a value that stands for what the node heard.
pub trait Luggage: Sized + Drop {
    // Whether it stands for a node that heard this.
    ghost stands: { ℕ → List Heard → Self → Type 0 };

    /// What a node has that has heard nothing yet.
    ///
    /// # Errors
    ///
    /// `OutOfMemory`.
    fn start(alloc: Global, node: NodeNo) -> Result<Self, OutOfMemory>
        ensures { IfOk result (λ luggage. stands node [] luggage) };
}

impl Luggage for () {
    ghost stands = { λ _ _ _. Unit {0} };

    fn start(_alloc: Global, _node: NodeNo) -> Result<(), OutOfMemory> {
        Ok(())
    }
}
