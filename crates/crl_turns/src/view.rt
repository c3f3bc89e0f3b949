//! What a pass knows. These types are words of contracts: no value of them is made.

use crl_model::event::Event;
use std::collections::LinkedList;

/// Where the value of a part is, for a pass.
pub enum Place {
    /// The pass doesn't hold the turn.
    Free,
    /// The pass holds the turn, and the value is in its slot.
    Full,
    /// The pass holds the turn, and its seat has the slot.
    Drawn,
    /// The pass holds the turn and has the value. The slot is at home and empty.
    Empty,
}

pub struct Holding {
    pub part: u64,
    pub place: Place,
}

/// An exchange of a turn from 0 to 1, which got the turn or found it out.
pub struct Try {
    pub part: u64,
    pub got: bool,
}

pub struct View {
    /// The beginning of the history that the pass knows.
    pub front: LinkedList<Event>,
    /// The history when the pass last loaded the count, appended or took a turn. What came since
    /// touches no part whose turn it holds.
    pub known: LinkedList<Event>,
    /// The front of the pass that was joined last.
    pub met: LinkedList<Event>,
    /// The positions of the events that the pass appended.
    pub own: LinkedList<u64>,
    /// The exchanges of turns that the pass made, in order.
    pub tried: LinkedList<Try>,
    /// The number of passes that were split from it.
    pub splits: u64,
    /// The newest entry of a part says where its value is. A part without an entry is free.
    pub holds: LinkedList<Holding>,
}
