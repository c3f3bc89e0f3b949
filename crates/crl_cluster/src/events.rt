//! Values that stand for the events. What was given for an event is a part of it, and comes back where it isn't done.
ghost use Rattle.crl_model.specs.declared.call.Call.TheVariants as call;
ghost use Rattle.crl_model.specs.declared.event.Event.TheVariants as event;

use crl_guard::{Reading, Writing};
use crl_model::NodeNo;
use crl_model::call::Call;
use crl_model::event::Evented;

/// The node makes this call.
pub(crate) struct Calling {
    pub(crate) node: NodeNo,
    pub(crate) call: Call,
}

impl Evented for Calling {
    ghost event = { λ e. event.Call e.node e.call };
}

/// The node takes its answer.
#[derive(Drop)]
pub(crate) struct Collecting {
    pub(crate) node: NodeNo,
}

impl Evented for Collecting {
    ghost event = { λ e. event.Collect e.node };
}

/// The node handles the piece at this place of its inbox.
#[derive(Drop)]
pub(crate) struct Handling {
    pub(crate) node: NodeNo,
    pub(crate) place: usize,
}

impl Evented for Handling {
    ghost event = { λ e. event.Handle e.node e.place };
}

/// The piece at this place of the node's outbox goes to its addressee.
#[derive(Drop)]
pub(crate) struct Carrying {
    pub(crate) node: NodeNo,
    pub(crate) place: usize,
}

impl Evented for Carrying {
    ghost event = { λ e. event.Carry e.node e.place };
}

/// The node ends the read section of this guard.
pub(crate) struct EndingRead {
    pub(crate) node: NodeNo,
    pub(crate) guard: Reading,
}

impl Evented for EndingRead {
    ghost event = { λ e. event.Call e.node (call.EndRead e.guard.name) };
}

/// The node ends the write section of this guard.
pub(crate) struct EndingWrite {
    pub(crate) node: NodeNo,
    pub(crate) guard: Writing,
}

impl Evented for EndingWrite {
    ghost event = { λ e. event.Call e.node (call.EndWrite e.guard.name e.guard.bytes) };
}
