//! A piece of the outbox goes to another node: its two halves.
ghost use Rattle.std.specs.Prelude.{◌≡◌, ◌<◌, IfOk, OnOk, length};
ghost use Rattle.crl_protocol.specs.Places.{take_out};
ghost use Rattle.crl_member.specs.Members.{CarryIsDone, TakenIsInTable, HasCome};
ghost use Rattle.crl_desk.specs.Desks.{state};
ghost use Rattle.crl_node.specs.Nodes.{IsNode, CanCarry};

use crate::concluding::conclude;
use crate::framing::{send, take_in};
use crl_desk::Desk;
use crl_model::OutOfMemory;
use crl_model::event::Event;
use crl_wire::Received;

/// Makes ready what it takes to carry the piece at this place of the outbox: `to` has then read it of its frame.
///
/// # Errors
///
/// `OutOfMemory`.
#[tactic(auto, using(crate::proofs::Sending::has_piece, crate::proofs::Sending::has_come))]
pub(crate) fn ready_carry(
    desk: &mut Desk,
    to: &mut Desk,
    place: usize,
) -> Result<Received, OutOfMemory>
    requires node { IsNode desk.old × IsNode to.old }
    requires there { place < length desk.old.outbox.list }
    requires in_table { TakenIsInTable (take_out place desk.old.outbox.list) }
    ensures state { (state desk.new ≡ state desk.old) × (state to.new ≡ state to.old) }
    ensures ready { OnOk result (CanCarry desk.new to.new) }
    ensures came { IfOk result (λ came. HasCome came (take_out place desk.old.outbox.list)) }
    ensures node { IsNode desk.new × IsNode to.new }
{
    let sent = send(desk.alloc, &desk.outbox, place)?;
    let came = take_in(to.alloc, sent)?;
    to.inbox.reserve(1)?;
    desk.make_room(0, 0, 1)?;
    Ok(came)
}

/// Carries the piece at this place of the outbox, which was made ready: what came in its frame goes into the inbox of `to`.
#[tactic(auto, using(crate::proofs::Sending::put_behind))]
pub(crate) fn make_carry(desk: &mut Desk, to: &mut Desk, at: u64, place: usize, came: Received)
    requires node { IsNode desk.old × IsNode to.old }
    requires there { place < length desk.old.outbox.list }
    requires ready { CanCarry desk.old to.old }
    requires came { HasCome came (take_out place desk.old.outbox.list) }
    ensures done { CarryIsDone at place (state desk.old) (state to.old) (state desk.new) (state to.new) }
    ensures node { IsNode desk.new × IsNode to.new }
{
    drop(desk.outbox.take(place));
    let before = desk.outbox.len();
    let node = desk.me;
    conclude(desk, at, Event::Carry { node, place }, before);
    to.inbox.put(came.into_piece());
}
