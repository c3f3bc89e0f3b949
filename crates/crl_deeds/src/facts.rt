//! What holds in every run.
ghost use Rattle.std.specs.Prelude.{ℕ, List};
ghost use Rattle.crl_model.specs.declared.event.Event.{Event};
ghost use Rattle.crl_protocol.specs.World.{IsRun, world_of};
ghost use Rattle.crl_deeds.specs.NodeFacts.{AllFit};
ghost use Rattle.crl_deeds.specs.Counts.{AllCounted, AllSectionsFit};
ghost use Rattle.crl_deeds.specs.Tokens.{WaitsForOneMap, WaitsForOneDelete};

/// The bytes at each node have the sizes of their regions, and a node waits for what it has asked for.
pub fn nodes_fit()
    ensures { (count capacity : ℕ) (run : List Event) → IsRun count capacity run → AllFit (world_of count capacity run) }
{}

/// Each map count is at least 1 and below 2^32, only other nodes' regions are doomed, and a message that isn't about
/// copies goes from a node of the world to a node of the world.
pub fn mappings_are_counted()
    ensures { (count capacity : ℕ) (run : List Event) → IsRun count capacity run → AllCounted count (world_of count capacity run) }
{}

/// Read sections that are open are counted from 1, below 2^32. Where a node waits for a section, one more fits, and none
/// is open to write.
pub fn reads_are_counted()
    ensures { (count capacity : ℕ) (run : List Event) → IsRun count capacity run → AllSectionsFit (world_of count capacity run) }
{}

/// A node waits for a map of a region of another home just while one message of it is under way, its ask or the answer.
pub fn who_maps_has_one()
    ensures { (count capacity : ℕ) (run : List Event) → IsRun count capacity run → WaitsForOneMap count (world_of count capacity run) }
{}

/// A node waits for a delete just while one message of it is under way, its ask or the answer, or the home deletes the
/// region for it.
pub fn who_deletes_has_one()
    ensures { (count capacity : ℕ) (run : List Event) → IsRun count capacity run → WaitsForOneDelete count (world_of count capacity run) }
{}
