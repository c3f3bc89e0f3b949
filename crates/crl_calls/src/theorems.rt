//! What a guard shows that a call has given.
ghost use Rattle.crl_model.specs.declared.event.Event.{Event};
ghost use Rattle.crl_protocol.specs.Node.{Answer};
ghost use Rattle.crl_protocol.specs.Sections.{Guard};
ghost use Rattle.crl_turns.specs.declared.turned.Shape.{Shape};
ghost use Rattle.std.specs.Prelude.{List};
ghost use Rattle.crl_calls.specs.Trails.{Ends};
ghost use Rattle.crl_calls.specs.Shown.{AnswerShowsArray};

/// The bytes of a guard that the last event of a front answers are those of the single machine's array after the account of
/// the front.
pub fn guards_show_the_array()
    ensures { (s : Shape) (e : Event) (answer : Answer) (front : List Event) → Ends s e answer front → AnswerShowsArray s front answer }
{}
