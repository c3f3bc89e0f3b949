//! That the players stay with the run that the definition chooses. There is no code here but empty functions, whose
//! contracts are the theorems.
ghost use Rattle.crl_run.specs.Staging.{NewPlayersStand, PlayersFollow, ChosenRunsGoOn};

/// New players stand for the run at its start. Where they stand for a run on its way, they stand for it after each of its
/// choices: a statement that is taken, whose guards are there where the node's verdict allows an end or a change; an answer
/// whose guard is kept; a message that is handled or carried.
pub fn players_follow_the_run()
    ensures begins { NewPlayersStand }
    ensures follows { PlayersFollow }
{}

/// What a script and an order choose in so many turns is a run on its way, whose nodes make calls that may come; one turn
/// more is the turn of the next word; and after as many turns as there are at most, no choice is left.
pub fn chosen_runs_go_on()
    ensures { ChosenRunsGoOn }
{}
