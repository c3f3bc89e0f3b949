//! The theorems. What is safe is defined in `crl_safety`.
ghost use Rattle.crl_sound.specs.Sound.{AfterEachRun, AfterAnyRun, NodesKnowTheirNumber, NodesAreSafe, PiecesAreSafe, PiecesLeaveForOthers};

/// Each node has its own number, and knows how many nodes there are.
pub fn nodes_know_their_number()
    ensures { AfterAnyRun NodesKnowTheirNumber }
{}

/// After each run every node is safe: what it has of its own regions and of others fits together, and no counter that the
/// next event raises passes a word.
pub fn nodes_are_safe()
    ensures { AfterEachRun NodesAreSafe }
{}

/// A piece at any place of an inbox is safe: another node sent it, it is taken in, and the message that it makes whole
/// meets its test.
pub fn pieces_are_safe()
    ensures { AfterAnyRun PiecesAreSafe }
{}

/// A piece at any place of an outbox is for another node of the world, and was sent by this one.
pub fn pieces_go_to_others()
    ensures { AfterAnyRun PiecesLeaveForOthers }
{}
