//! The events of a run.
ghost use Rattle.std.specs.Prelude.{IfOk, ◌≡◌};

use crate::call::Call;
use crate::{NodeNo, OutOfMemory};
use std::alloc::Global;

/// One atomic step. A place is counted from 0.
#[derive(Debug, Drop, PartialEq)]
pub enum Event {
    /// The node makes this call.
    Call { node: NodeNo, call: Call },
    /// The node takes the answer for which it waited.
    Collect { node: NodeNo },
    /// The node acts on the message at this place of its inbox.
    Handle { node: NodeNo, place: usize },
    /// The message at this place of the node's outbox comes into its addressee's inbox.
    Carry { node: NodeNo, place: usize },
}

impl Event {
    /// An equal value.
    ///
    /// # Errors
    ///
    /// `OutOfMemory`.
    pub fn copy(&self, alloc: Global) -> Result<Event, OutOfMemory>
        ensures { IfOk result (λ e. e ≡ self.now) }
    {
        Ok(match self {
            Event::Call { node, call } => Event::Call {
                node: *node,
                call: call.copy(alloc)?,
            },
            Event::Collect { node } => Event::Collect { node: *node },
            Event::Handle { node, place } => Event::Handle {
                node: *node,
                place: *place,
            },
            Event::Carry { node, place } => Event::Carry {
                node: *node,
                place: *place,
            },
        })
    }
}

/// A value that stands for an event.
pub trait Evented {
    ghost use Rattle.crl_model.specs.declared.event.Event.{Event};

    // The event for which the value stands.
    ghost event: { Self → Event };
}

impl Evented for Event {
    ghost event = { λ event. event };
}
