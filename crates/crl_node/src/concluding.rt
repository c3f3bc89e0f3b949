//! The end of an event.
ghost use Rattle.std.specs.Prelude.{◌≡◌, ◌+◌, ◌-◌, ◌*◌, ◌^◌, ◌≤◌, length};
ghost use Rattle.crl_desk.specs.Desks.{state, HasRoom};
ghost use Rattle.crl_node.specs.Nodes.{IsNode, IsFew, concluded};

use crl_desk::Desk;
use crl_model::event::Event;

/// Notes the event, and counts what it posted: what stands in the outbox behind as many pieces as before it.
pub(crate) fn conclude(desk: &mut Desk, at: u64, event: Event, before: usize)
    requires room { HasRoom 0 0 1 desk.old }
    requires before { before ≤ length desk.old.outbox.list }
    requires few { IsFew (state desk.old) }
    ensures state { state desk.new ≡ concluded at event before (state desk.old) }
    ensures node { IsNode desk.new }
{
    let posted = desk.outbox.len() - before;
    let _notes = desk.journal.notes().len();
    desk.posted += posted as u128;
    desk.journal.note(at, event);
}
