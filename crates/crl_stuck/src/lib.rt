//! Where a run ends: nobody can go on exactly where the world is truly stuck, and what the report says blocks a node keeps
//! it waiting. There is no code here but empty functions, whose contracts are the theorems.
#![tactic(auto)]

ghost use Rattle.std.specs.Prelude.{◌≡◌, ℕ, List, []};
ghost use Rattle.crl_model.specs.declared.statement.Statement.{Statement};
ghost use Rattle.crl_protocol.specs.Chosen.{Running, choices};
ghost use Rattle.crl_protocol.specs.Ends.{IsTrulyStuck};
ghost use Rattle.crl_regions.specs.Reached.{AfterRuns};
ghost use Rattle.crl_stuck.specs.Stuck.{QuietIsBlocked, StopsStuck, EndsStuck, ReportNamesStuck};
ghost use Rattle.crl_stuck.specs.Ends.{ForEachScript, LastIsStuck, RunEnds, HasOneEnd};

/// Where no piece is in a box after a run, each node that waits is blocked: one that waits for a section by the least other
/// node that has one open, one that waits in a round by the least that hasn't come to it. None waits for a map or a delete.
pub fn waiters_are_blocked()
    ensures { AfterRuns QuietIsBlocked }
{}

/// Where no choice is left, the world is truly stuck: no piece is in a box, and each node that isn't finished waits, blocked
/// as said above. And a truly stuck world has no choice left, whether it's that of a run or not.
pub fn stuck_is_blocked()
    ensures chosen { ForEachScript LastIsStuck }
    ensures runs { AfterRuns StopsStuck }
    ensures back { (end : Running) → IsTrulyStuck end → choices end ≡ [] }
{}

/// The report of such an end names one cause for each unfinished node, by node, and none where all are finished.
pub fn reports_name_each_stuck_node()
    ensures { (end : Running) → EndsStuck end → ReportNamesStuck end }
{}

/// Each script of statements and each order choose a run that ends, after at most two turns for each statement and two for
/// each message that the statements may lead to. There it's truly stuck. It has no other end.
pub fn runs_end()
    ensures ends { ForEachScript RunEnds }
    ensures one { (count capacity : ℕ) (blocks : List (List Statement)) (words : ℕ → ℕ) → HasOneEnd count capacity blocks words }
{}
