//! A section opens for which the node waits.
ghost use Rattle.std.specs.Prelude.{◌≡◌, ◌+◌, ◌<◌, ◌^◌};
ghost use Rattle.crl_model.specs.declared.directory.Section.TheVariants.{Closed};
ghost use Rattle.crl_protocol.specs.Node.{section_opens};
ghost use Rattle.crl_protocol.specs.Sections.{section_at};
ghost use Rattle.crl_table.specs.Tables.{HasPlace};
ghost use Rattle.crl_desk.specs.Desks.{state, HasRoom};
ghost use Rattle.crl_copying.specs.Serving.{ready_with};

use crl_desk::{Desk, Shown, open_section};
use crl_model::name::Name;
use crl_outbox::Paper;

/// Paper for the bytes with which a section opens: for those of its guard, for those with which it began, and for the
/// entry of its end.
#[derive(Drop)]
pub(crate) struct Papers {
    pub(crate) guard: Paper,
    pub(crate) began: Paper,
    pub(crate) end: Paper,
}

/// A section of the region opens with these bytes, and the node is ready with it. None of the region was open.
pub(crate) fn open_ready(desk: &mut Desk, at: u64, name: Name, write: bool, shown: Shown)
    requires room { HasRoom 0 2 2 desk.old }
    requires place { HasPlace name desk.old.sections.rows }
    requires last { desk.old.sections.last + 1 < 2 ^ 64 }
    requires closed { section_at name (state desk.old).sections ≡ Closed }
    ensures state { state desk.new ≡ ready_with at (section_opens write name shown (state desk.old)) }
    ensures room { HasRoom 0 0 1 desk.new }
{
    desk.note_closed(name);
    let answer = open_section(desk, at, name, write, shown);
    desk.standing.ready(answer);
}
