//! Who has a region in every run: maps, the caches of nodes, and deletes. There is no code here but empty functions,
//! whose contracts are the theorems. Each is about any number of nodes, every name, and every run.
#![tactic(auto)]

ghost use Rattle.std.specs.Prelude.{◌≡◌, ◌≤◌, ◌<◌, ◌==◌, ℕ, List, [], true, false};
ghost use Rattle.crl_model.specs.declared.name.Name.{Name};
ghost use Rattle.crl_model.specs.declared.stage.Stage.TheVariants.{Unknown};
ghost use Rattle.crl_model.specs.declared.event.Event.{Event};
ghost use Rattle.crl_protocol.specs.Places.{Took};
ghost use Rattle.crl_protocol.specs.Parcels.{Piece};
ghost use Rattle.crl_protocol.specs.World.{pieces_in_boxes, is_enabled, step, new_world, world_of, IsRunFrom};
ghost use Rattle.crl_lifetime.specs.Lifetime.{StageMoves, home_stage, waits_for_map, waits_for_delete, WaitsHaveOne, HomeAgrees, OwnAgrees, NodeAgrees, MessageFits};

/// A name moves from Unknown to Live, to Going, to Gone, and never back. No region has a name whose home is no node,
/// or whose serial is 0.
pub fn stages_only_move_on()
    ensures moves { (count capacity : ℕ) (run : List Event) (e : Event) (r : Name) → let w = world_of count capacity run in
        IsRunFrom (new_world count capacity) run → is_enabled e w ≡ true → StageMoves (home_stage r w) (home_stage r (step e w).world) }
    ensures nowhere { (count capacity : ℕ) (run : List Event) (r : Name) →
        IsRunFrom (new_world count capacity) run → count ≤ r.home → home_stage r (world_of count capacity run) ≡ Unknown }
    ensures serials { (count capacity : ℕ) (run : List Event) (r : Name) →
        IsRunFrom (new_world count capacity) run → r.serial ≡ 0 → home_stage r (world_of count capacity run) ≡ Unknown }
{}

/// A node that waits for a map has one InfoAsk or InfoIs of it under way, else none. One that waits for a delete has one
/// DeleteAsk or DeleteIs under way, or the home is deleting the region for it, else none.
pub fn waits_have_one()
    ensures { (count capacity : ℕ) (run : List Event) (n : ℕ) (r : Name) →
        IsRunFrom (new_world count capacity) run → n < count → WaitsHaveOne n r (world_of count capacity run) }
{}

/// What a home knows of its region, what it has of it itself, and what each other node has of it, fit together.
pub fn homes_and_nodes_agree()
    ensures home { (count capacity : ℕ) (run : List Event) (r : Name) →
        IsRunFrom (new_world count capacity) run → HomeAgrees r (world_of count capacity run) }
    ensures own { (count capacity : ℕ) (run : List Event) (r : Name) →
        IsRunFrom (new_world count capacity) run → r.home < count → OwnAgrees r (world_of count capacity run) }
    ensures node { (count capacity : ℕ) (run : List Event) (n : ℕ) (r : Name) →
        IsRunFrom (new_world count capacity) run → n < count → (r.home == n) ≡ false → NodeAgrees r n (world_of count capacity run) }
{}

/// Each message of maps and deletes that is in a box meets the test of its handler at its addressee: nothing is
/// ignored.
pub fn lifetime_messages_fit()
    ensures { (count capacity : ℕ) (run : List Event) (p : Piece) (rest : List Piece) → let w = world_of count capacity run in
        IsRunFrom (new_world count capacity) run → Took p (pieces_in_boxes w) rest → MessageFits w p.message }
{}

/// Where no piece is in a box, no node waits for a map or for a delete.
pub fn no_map_or_delete_waits_for_nothing()
    ensures { (count capacity : ℕ) (run : List Event) (n : ℕ) (r : Name) → let w = world_of count capacity run in
        IsRunFrom (new_world count capacity) run → n < count → pieces_in_boxes w ≡ [] →
        (waits_for_map r (w.nodes n).activity ≡ false) × (waits_for_delete r (w.nodes n).activity ≡ false) }
{}
