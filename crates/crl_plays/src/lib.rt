//! Runs whose nodes each make the calls of their statements are runs of the script. There is no code here but an empty
//! function, whose contract is the theorem.
#![tactic(auto)]

ghost use Rattle.crl_plays.specs.Plays.{PlaysAreRuns};

use crl_deeds::theorems::{choices_give_all_runs, choices_make_runs};

/// Where each node of a run is somewhere in its statements, by what it heard alone, the run is one that the script and some
/// order of steps choose: up to its last event, with the statements that each node has left, and its drafts.
pub fn plays_are_runs()
    ensures { PlaysAreRuns }
{
    choices_make_runs();
    choices_give_all_runs();
}
