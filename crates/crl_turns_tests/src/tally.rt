//! A count of the events of a node.
ghost use Rattle.std.specs.Prelude.{◌≡◌, ◌==◌, true};
ghost use Rattle.crl_turns_tests.specs.Tallies.{node_of, events_of, count_stays};

use crl_turns::turned::{Shape, Turned};

#[derive(Debug, Drop, PartialEq)]
pub struct Tally {
    pub shape: Shape,
    pub count: u64,
}

impl Turned for Tally {
    ghost shape = { λ tally. tally.shape };

    ghost enabled = { λ _ _ _. Unit {0} };

    ghost touches = { λ _ _ event part. (node_of event == part) ≡ true };

    ghost stands = { λ _ part front tally. tally.count ≡ events_of part front };

    fn shape(&self) -> Shape {
        self.shape
    }

    ghost stays = { λ _ part front event tally is _ apart. count_stays part front event tally.count is apart };
}
