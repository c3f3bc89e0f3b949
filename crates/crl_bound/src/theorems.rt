//! The theorems.
ghost use Rattle.crl_bound.specs.Counters.{BoundsEachRun, MessagesFew, EventsFew, CountersFew};

/// A run sends at most so many messages, each piece counted, as its calls allow: for a section three and three for each
/// piece of the region, two for each map and each collective call, and two per node for each delete.
pub fn messages_are_bounded()
    ensures { BoundsEachRun MessagesFew }
{}

/// A run has no more events than its calls, the answers that are taken, and two for each piece that was sent; and no more
/// answers are taken than there were calls. So a run of so many calls ends.
pub fn events_are_bounded()
    ensures { BoundsEachRun EventsFew }
{}

/// The counters of each node are at most the number of events, and what a node sent is at most the bound of the run.
pub fn counters_are_bounded()
    ensures { BoundsEachRun CountersFew }
{}
