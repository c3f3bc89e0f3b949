//! The theorems.
ghost use Rattle.std.specs.Prelude.{ℕ, ◌<◌, List};
ghost use Rattle.crl_model.specs.declared.event.Event.{Event};
ghost use Rattle.crl_model.specs.declared.statement.Statement.{Statement};
ghost use Rattle.crl_protocol.specs.World.{new_world, world_of, IsRun, IsRunFrom};
ghost use Rattle.crl_protocol.specs.Chosen.{Running, running, block_of};
ghost use Rattle.crl_deeds.specs.Laws.{Follows};
ghost use Rattle.crl_protocol.specs.Talk.{hears};
ghost use Rattle.crl_talk.specs.Calls.{CallsStandOnce};
ghost use Rattle.crl_talk.specs.Guards.{SectionsAreGuards, EndsShowGuards};
ghost use Rattle.crl_talk.specs.Script.{CallsAreThose};

/// A run that follows a script makes, at each node, the calls of the node's statements in order, up to those that the node
/// has left. Changes inside write sections that are allowed are left out; the end of the section leaves their bytes.
pub fn calls_are_the_statements()
    ensures { (count capacity : ℕ) (blocks : List (List Statement)) (run : List Event) (end : Running) →
        Follows (running count capacity blocks) run end → (n : ℕ) → CallsAreThose n (new_world count capacity) (block_of blocks n) (end.actors n).left run }
{}

/// The sections that are open at a node are those whose guards it was given and that it hasn't ended, and that of the guard
/// that it has yet to take. Read sections inside each other are counted.
pub fn sections_are_the_guards()
    ensures { (count capacity : ℕ) (run : List Event) →
        IsRunFrom (new_world count capacity) run → (n : ℕ) → SectionsAreGuards n (world_of count capacity run) (hears n (new_world count capacity) run) }
{}

/// Where a node ends a section it enters the bytes that the section's guard gave it; of read sections inside each other,
/// the outermost guard.
pub fn ends_show_their_guards()
    ensures { (count capacity : ℕ) (run : List Event) → IsRunFrom (new_world count capacity) run → (n : ℕ) → EndsShowGuards n (world_of count capacity run) (hears n (new_world count capacity) run) }
{}

/// The entries of a node in the account, in order, are the lines of its calls with their answers, each call once. Where the
/// last call has no answer yet, a part of its lines stands at the end.
pub fn calls_stand_once()
    ensures { (count capacity : ℕ) (run : List Event) → IsRun count capacity run → (n : ℕ) → n < count → CallsStandOnce n count capacity run }
{}
