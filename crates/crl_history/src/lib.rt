//! The history of a run: the single machine that its world stands for. There is no code here but empty functions,
//! whose contracts are the theorems.
#![tactic(auto)]

pub mod legal;

ghost use Rattle.std.specs.Prelude.{ℕ, List};
ghost use Rattle.crl_model.specs.declared.event.Event.{Event};
ghost use Rattle.crl_protocol.specs.World.{IsRunFrom, new_world, world_of};
ghost use Rattle.crl_rounds.specs.Standing.{machine_of};
ghost use Rattle.crl_history.specs.Mirrors.{Mirrors};

/// After each run, of any number of nodes, what the single machine has after the run's account is what the nodes have.
pub fn every_run_mirrors()
    ensures { (count capacity : ℕ) (run : List Event) → IsRunFrom (new_world count capacity) run → Mirrors (world_of count capacity run) (machine_of count capacity run) }
{}
