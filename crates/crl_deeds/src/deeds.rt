//! Deeds: the one case analysis of what a node does.
ghost use Rattle.std.specs.Prelude.{◌≡◌, ℕ, Some, true};
ghost use Rattle.crl_model.specs.declared.call.Call.{Call};
ghost use Rattle.crl_model.specs.declared.call.Refusal.{Refusal};
ghost use Rattle.crl_model.specs.declared.event.Event.{Event};
ghost use Rattle.crl_model.specs.declared.message.Kind.{Kind};
ghost use Rattle.crl_protocol.specs.Node.{Node};
ghost use Rattle.crl_protocol.specs.Calls.{node_calls};
ghost use Rattle.crl_protocol.specs.Handlers.{node_handles};
ghost use Rattle.crl_protocol.specs.Verdict.{verdict};
ghost use Rattle.crl_protocol.specs.World.{World, step, is_enabled};
ghost use Rattle.crl_deeds.specs.Deeds.{Calls, Hears, Deed};
ghost use Rattle.crl_deeds.specs.Refusals.{Refuses};
ghost use Rattle.crl_deeds.specs.Turns.{Turn};

/// What a node does with a call is one of its deeds.
pub fn calls_are_deeds()
    ensures { (n : Node) (c : Call) → Deed n (Calls c) (node_calls c n) }
{}

/// What a node does with a message that has all its bytes is one of its deeds.
pub fn messages_are_deeds()
    ensures { (n : Node) (from : ℕ) (k : Kind) → Deed n (Hears from k) (node_handles from k n) }
{}

/// A call that its node refuses is refused for what the node finds.
pub fn refusals_have_causes()
    ensures { (n : Node) (c : Call) (why : Refusal) → verdict n c ≡ Some why → Refuses n c why }
{}

/// What an event does that may come is a turn of the world.
pub fn events_are_turns()
    ensures { (w : World) (e : Event) → is_enabled e w ≡ true → Turn w e (step e w) }
{}
