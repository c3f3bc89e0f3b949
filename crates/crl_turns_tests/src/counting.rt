//! One event, appended and counted.
ghost use Rattle.std.specs.Prelude.{◌≡◌, ◌<◌, MatchResult};
ghost use Rattle.crl_turns.specs.Closing.{HoldsNone};
ghost use Rattle.crl_turns.specs.Passes.{view_of, part_count, IsOf};
ghost use Rattle.crl_turns_tests.specs.Tallies.{node_of};
ghost use Rattle.crl_turns_tests.specs.Counting.{Counts};

use crate::tally::Tally;
use crl_model::event::Event;
use crl_turns::{AppendFault, Pass, Turns};

/// Why an event was not appended.
#[derive(Debug, Drop, Clone, Copy, PartialEq)]
pub enum CountFault {
    Busy,
    Append(AppendFault),
}

/// Takes the turn of the event's node, appends the event, counts it, and gives the turn back.
///
/// # Errors
///
/// `Busy`: the turn is out. `Append`: the event was not appended.
pub fn append_counted(
    turns: &Turns<Tally>,
    pass: &mut Pass,
    part: usize,
    event: &Event,
) -> Result<(), CountFault>
    requires here { IsOf turns.now pass.old }
    requires inside { part < part_count turns.now }
    requires node { node_of event.now ≡ part }
    ensures here { IsOf turns.now pass.new }
    ensures turns { HoldsNone (view_of pass.old) → HoldsNone (view_of pass.new) }
    ensures told { MatchResult result
        (λ _. Counts event.now (view_of pass.old) (view_of pass.new))
        (λ _. (view_of pass.new).own ≡ (view_of pass.old).own) }
{
    let Ok(mut tally) = turns.try_take(pass, part) else {
        return Err(CountFault::Busy);
    };
    let saw = turns.seen(pass);
    match turns.append(pass, saw, event) {
        Ok(()) => {
            tally.count += 1;
            turns.give_back(pass, part, tally);
            Ok(())
        }
        Err(fault) => {
            turns.give_back(pass, part, tally);
            Err(CountFault::Append(fault))
        }
    }
}
