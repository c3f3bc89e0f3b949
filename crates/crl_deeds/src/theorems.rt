//! Laws of the definitions.
ghost use Rattle.std.specs.Prelude.{◌≡◌, ◌≤◌, ◌^◌, ℕ, List, [], ◌∷◌, ◌++◌, Bool, true, false, None};
ghost use Rattle.crl_model.specs.declared.call.Call.{Call};
ghost use Rattle.crl_model.specs.declared.message.Kind.{Kind};
ghost use Rattle.crl_model.specs.declared.event.Event.{Event};
ghost use Rattle.crl_model.specs.declared.event.Event.TheVariants as event;
ghost use Rattle.crl_model.specs.declared.statement.Statement.{Statement};
ghost use Rattle.crl_protocol.specs.Places.{take_out};
ghost use Rattle.crl_protocol.specs.World.{World, step, is_enabled, IsRun, world_of, account};
ghost use Rattle.crl_protocol.specs.Chosen.{Running, running};
ghost use Rattle.crl_protocol.specs.Node.{Node};
ghost use Rattle.crl_protocol.specs.Calls.{node_calls};
ghost use Rattle.crl_protocol.specs.Handlers.{node_handles};
ghost use Rattle.crl_deeds.specs.Deeds.{Calls, Hears};
ghost use Rattle.crl_deeds.specs.Entries.{entries_of, entries_at};
ghost use Rattle.crl_deeds.specs.Laws.{touches, Follows, AreStatements, chosen, HasItsEvents, FollowsScript, IsChosenBySome};

/// An event changes only the nodes that it touches.
pub fn events_touch_few()
    ensures { (e : Event) (w : World) (m : ℕ) → touches e w m ≡ false → (step e w).world.nodes m ≡ w.nodes m }
{}

/// Whether an event may come is seen at the nodes that it touches.
pub fn enabled_looks_at_few()
    ensures { (e : Event) (v w : World) → v.count ≡ w.count → ((m : ℕ) → touches e w m ≡ true → v.nodes m ≡ w.nodes m) → is_enabled e v ≡ is_enabled e w }
{}

/// What isn't there can't happen: without a message at the place there is no event of it, and each event of a
/// run may come after those before it.
pub fn events_are_enabled()
    ensures handle { (i place : ℕ) (w : World) → take_out place (w.nodes i).inbox ≡ None → is_enabled (event.Handle i place) w ≡ false }
    ensures carry { (i place : ℕ) (w : World) → take_out place (w.nodes i).outbox ≡ None → is_enabled (event.Carry i place) w ≡ false }
    ensures run { (count capacity : ℕ) (before : List Event) (e : Event) (behind : List Event) → IsRun count capacity (before ++ e ∷ behind) → is_enabled e (world_of count capacity before) ≡ true }
{}

/// The entries of a call, of a message with all its bytes and of an event are those of the table, and no others: by
/// what the node knows then. So a refusal has the place and the reason of the node's verdict or of the region's stage,
/// and the answer to a purge ends the delete of the node that deletes.
pub fn entries_are_decided()
    ensures calls { (n : Node) (c : Call) → (node_calls c n).entries ≡ entries_of n (Calls c) }
    ensures messages { (n : Node) (from : ℕ) (k : Kind) → (node_handles from k n).entries ≡ entries_of n (Hears from k) }
    ensures events { (e : Event) (w : World) → (step e w).entries ≡ entries_at e w }
{}

/// An account grows with each event by the entries of that event.
pub fn accounts_grow()
    ensures account { (count capacity : ℕ) (run : List Event) (e : Event) → account count capacity (run ++ e ∷ []) ≡ account count capacity run ++ entries_at e (world_of count capacity run) }
    ensures world { (count capacity : ℕ) (run : List Event) (e : Event) → world_of count capacity (run ++ e ∷ []) ≡ (step e (world_of count capacity run)).world }
{}

/// What a script and an order choose is a run, with its world and its account. It has at most an event for
/// each turn.
pub fn choices_make_runs()
    ensures events { (count capacity : ℕ) (blocks : List (List Statement)) (words : ℕ → ℕ) (k : ℕ) →
        HasItsEvents count capacity (chosen count capacity blocks words k) }
    ensures run { (count capacity : ℕ) (blocks : List (List Statement)) (words : ℕ → ℕ) (k : ℕ) →
        AreStatements blocks → k ≤ 2 ^ 62 → IsRun count capacity (chosen count capacity blocks words k).events }
{}

/// The runs that follow a script are those that its choices give.
pub fn choices_give_all_runs()
    ensures follow { (count capacity : ℕ) (blocks : List (List Statement)) (words : ℕ → ℕ) (k : ℕ) → FollowsScript count capacity blocks (chosen count capacity blocks words k) }
    ensures all { (count capacity : ℕ) (blocks : List (List Statement)) (es : List Event) (end : Running) → Follows (running count capacity blocks) es end → IsChosenBySome count capacity blocks end }
{}
