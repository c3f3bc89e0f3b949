//! The account of each run is a legal history of the single machine.
ghost use Rattle.std.specs.Prelude.{ℕ, List};
ghost use Rattle.crl_model.specs.declared.event.Event.{Event};
ghost use Rattle.crl_machine.specs.SingleMachine.{start, IsHistory};
ghost use Rattle.crl_protocol.specs.World.{IsRunFrom, new_world, account};
ghost use Rattle.crl_rounds.specs.Standing.{InEveryRun};
ghost use Rattle.crl_history.specs.Legal.{EngagedNodesWait, EntriesAreLegal, AnswersShowTheArray, QuietWorldsEnd};

/// The account of every run, of any number of nodes, is a legal history of the single machine from its start.
pub fn accounts_are_histories()
    ensures { (count capacity : ℕ) (run : List Event) → IsRunFrom (new_world count capacity) run → IsHistory (start count) (account count capacity run) }
{}

/// The entries of each event that may come after a run are legal steps of the single machine, each after those before it.
pub fn entries_are_legal()
    ensures { InEveryRun EntriesAreLegal }
{}

/// A node that is engaged in the single machine, in a round or in a delete, waits for that round's result or for that
/// delete. So a free node, and one that waits for a section or a map, is free in the machine.
pub fn engaged_nodes_wait()
    ensures { InEveryRun EngagedNodesWait }
{}

/// The bytes of each guard that an event answers are those of the single machine's array after the event.
pub fn guards_show_the_array()
    ensures { InEveryRun AnswersShowTheArray }
{}

/// After each run that leaves no piece in a box, the bytes of a name are those of the array, none where the name isn't
/// there, and the regions at the end are those of the single machine.
pub fn quiet_runs_end_like_the_machine()
    ensures { InEveryRun QuietWorldsEnd }
{}
