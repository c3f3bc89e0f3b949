//! What a value behind a turn has to be.
ghost use Rattle.std.specs.Prelude.{◌≡◌, ℕ, List, [], ◌∷◌, ◌++◌};
ghost use Rattle.crl_model.specs.declared.event.Event.{Event};

/// Two numbers that each value tells. The values behind one set of turns all have the same.
#[derive(Debug, Drop, Clone, Copy, PartialEq)]
pub struct Shape {
    pub parts: u64,
    pub extra: u64,
}

/// A value that can stand for a part of what a history of events comes to.
///
/// The turns know of it what these members say, and nothing else.
pub trait Turned {
    ghost use Rattle.crl_turns.specs.declared.turned.Shape.{Shape};

    // The shape of a value.
    ghost shape: { Self → Shape };

    // Whether an event may come after a list.
    ghost enabled: { Shape → List Event → Event → Type 0 };

    // Whether an event touches a part, where it comes after a list.
    ghost touches: { Shape → List Event → Event → ℕ → Type 0 };

    // Whether a value stands for a part after a list.
    ghost stands: { Shape → ℕ → List Event → Self → Type 0 };

    fn shape(&self) -> Shape
        ensures { result ≡ shape self.now };

    // The one law: where a value stands for a part after a list, an event that is enabled there and
    // doesn't touch the part leaves it so.
    ghost stays: { (common : Shape) (part : ℕ) (front : List Event) (event : Event) (value : Self) →
        stands common part front value → enabled common front event → (touches common front event part → ⊥) →
        stands common part (front ++ event ∷ []) value };
}
