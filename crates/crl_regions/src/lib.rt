//! Each region of a run, seen by itself, is made of the events under which a region stays coherent. So in every run
//! each region is coherent. There is no code here but empty functions, whose contracts are the theorems.
#![tactic(auto)]

ghost use Rattle.std.specs.Prelude.{◌≡◌, ℕ, List, []};
ghost use Rattle.crl_model.specs.declared.name.Name.{Name};
ghost use Rattle.crl_model.specs.declared.event.Event.{Event};
ghost use Rattle.crl_machine.specs.SingleMachine.{start, after_all};
ghost use Rattle.crl_protocol.specs.World.{new_world, world_of, account, IsRunFrom};
ghost use Rattle.crl_flight.specs.Flight.{Under};
ghost use Rattle.crl_regions.specs.Reached.{AfterRuns, PiecesGoToOthers, MessagesGoToOthers, BoxesGoToOthers, EmptyBoxesAreQuiet, EventsKeepRegions, SectionsAreTheTables, WriteSectionsAreAlone, SizesAreKnown, AskersWait, WaitersAsk, MessagesMeetTests, PiecesAreTakenIn, WholeMessagesMeetTests};
ghost use Rattle.crl_regions.specs.Steps.{RegionsHold};
ghost use Rattle.crl_regions.specs.View.{array_of};

/// In every run each piece in a box, and each message under way, goes from a node of the world to another one. A piece in
/// an inbox is for that node.
pub fn messages_go_to_others()
    ensures pieces { AfterRuns PiecesGoToOthers }
    ensures messages { AfterRuns MessagesGoToOthers }
    ensures boxes { AfterRuns BoxesGoToOthers }
{}

/// What is known of all regions holds at the start, and each event that may come after a run keeps it, whatever is under
/// way before it: each region goes on by one event of its own. So after each run all regions are coherent, with the
/// bytes that the run's creates and ends of write sections leave in the array.
pub fn regions_hold()
    ensures start { (count capacity : ℕ) → RegionsHold (new_world count capacity) [] (λ name. []) }
    ensures goes_on { AfterRuns EventsKeepRegions }
    ensures runs { (count capacity : ℕ) (run : List Event) → IsRunFrom (new_world count capacity) run →
        (us : List Under) × RegionsHold (world_of count capacity run) us (λ name. array_of name count capacity run) }
{}

/// Where no piece is in a box, nothing is under way.
pub fn nothing_is_under_way()
    ensures { AfterRuns EmptyBoxesAreQuiet }
{}

/// The array of a run is the single machine's after the run's account: each event leaves in the array what its entries
/// leave there.
pub fn array_is_the_accounts()
    ensures { (count capacity : ℕ) (run : List Event) (name : Name) → (after_all (start count) (account count capacity run)).bytes name ≡ array_of name count capacity run }
{}

/// The sections that a node notes are those that the region's tables say are open there.
pub fn sections_are_the_tables()
    ensures { AfterRuns SectionsAreTheTables }
{}

/// While a node's section of a region is open to write, no other node has a section of it open.
pub fn write_sections_are_alone()
    ensures { AfterRuns WriteSectionsAreAlone }
{}

/// The size that a node has of a region is the region's: in its record of another node's region, where it maps it, and in
/// its cache.
pub fn sizes_are_known()
    ensures { AfterRuns SizesAreKnown }
{}

/// A node that asks for a section of a region waits for it, and a node that waits for one has asked for it: another node
/// with its ask, and the home with its own in the queue. That there is one ask, and where it stands, `asks_stand_once`
/// says of each coherent region.
pub fn who_asks_waits()
    ensures asks { AfterRuns AskersWait }
    ensures waits { AfterRuns WaitersAsk }
{}

/// Each message about copies that is under way meets the test of its handler, and each piece of one that stands in an
/// inbox is taken in: no message and no piece is ignored. The message that such a piece makes whole meets its test too.
pub fn messages_that_come_fit()
    ensures messages { AfterRuns MessagesMeetTests }
    ensures pieces { AfterRuns PiecesAreTakenIn }
    ensures whole { AfterRuns WholeMessagesMeetTests }
{}
