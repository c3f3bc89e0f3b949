//! Scripts that always finish: a script whose sections aren't nested and whose rounds are aligned never gets stuck, under
//! any order of steps and messages. There is no code here but empty functions, whose contracts are the theorems.
#![tactic(auto)]

ghost use Rattle.crl_stuck.specs.Ends.{ForEachScript};
ghost use Rattle.crl_finish.specs.Finish.{Finishes, ComesToFinish};

/// Where each section of a script is ended before another is started or a collective call is made, and all nodes come to
/// equally many rounds, every run of it that has no choice left is done: each node is finished, and none is blocked.
pub fn unnested_scripts_finish()
    ensures { ForEachScript Finishes }
{}

/// Under every order such a script comes to that end, after at most two turns for each statement and two for each message
/// that the statements may lead to.
pub fn unnested_scripts_end()
    ensures { ForEachScript ComesToFinish }
{}
