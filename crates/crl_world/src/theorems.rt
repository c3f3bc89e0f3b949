//! The law of the choices.
ghost use Rattle.std.specs.Prelude.{◌≡◌, ◌<◌, ℕ, Bool};
ghost use Rattle.crl_protocol.specs.Chosen.{Running, choices};
ghost use Rattle.crl_world.specs.Choosing.{choices_by, has_some};

/// The choices by which nodes have a statement left are those of a run on its way, where that is what is left of its
/// statements.
pub fn choices_are_those_of_the_run()
    ensures { (r : Running) (left : ℕ → Bool) → ((i : ℕ) → i < r.world.count → left i ≡ has_some (r.actors i).left) → choices_by left r.world ≡ choices r }
{}
