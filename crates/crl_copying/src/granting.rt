//! A grant: the section opens for which the node waits.
ghost use Rattle.std.specs.Prelude.{◌≡◌, ◌+◌, ◌<◌, ◌^◌};
ghost use Rattle.crl_model.specs.declared.directory.Section.TheVariants.{Closed};
ghost use Rattle.crl_model.specs.declared.message.Kind.TheVariants as kind;
ghost use Rattle.crl_protocol.specs.Handlers.{node_handles};
ghost use Rattle.crl_protocol.specs.Node.{section_opens};
ghost use Rattle.crl_protocol.specs.Sections.{section_at};
ghost use Rattle.crl_protocol.specs.Sectioning.{copy_bytes};
ghost use Rattle.crl_remote.specs.RemotesState.{row_at};
ghost use Rattle.crl_safety.specs.Safety.{IsSafe};
ghost use Rattle.crl_safety.specs.Tests.{MeetsTest};
ghost use Rattle.crl_table.specs.Tables.{HasPlace};
ghost use Rattle.crl_desk.specs.Desks.{state, acted, HasRoom};
ghost use Rattle.crl_desk.specs.Kits.{IsSectionReady};
ghost use Rattle.crl_copying.specs.Serving.{ready_with, gives_write, AreFor};

use crate::opening::{Papers, open_ready};
use crl_desk::{Desk, SectionKit, Shown};
use crl_model::NodeNo;
use crl_model::message::Granted;
use crl_model::name::Name;

/// A grant comes: the section opens for which the node waits, with the bytes of the copy, and the node is ready with it.
pub fn take_grant(
    desk: &mut Desk,
    at: u64,
    from: NodeNo,
    name: Name,
    version: u64,
    granted: Granted,
    kit: SectionKit,
)
    requires ready { IsSectionReady name kit desk.old }
    requires safe { IsSafe (state desk.old) }
    requires meets { MeetsTest (state desk.old) from (kind.Grant name version granted) }
    ensures state { state desk.new ≡ acted at (node_handles from (kind.Grant name version granted) (state desk.old)) }
    ensures room { HasRoom 0 0 1 desk.new }
{
    let _room = desk.outbox.room();
    let SectionKit {
        guard,
        began,
        end,
        sheets,
    } = kit;
    let write = gives_write(&granted);
    desk.remotes.take_grant(name, version, granted, sheets);
    open_granted(desk, at, name, write, Papers { guard, began, end });
}

/// Whether the grant is one for an ask to write.
fn gives_write(granted: &Granted) -> bool
    ensures { result ≡ gives_write granted.now }
{
    match granted {
        Granted::Shared(_) => false,
        Granted::Exclusive(_) | Granted::Upgrade => true,
    }
}

/// The section opens over the copy that is here.
fn open_granted(desk: &mut Desk, at: u64, name: Name, write: bool, papers: Papers)
    requires room { HasRoom 0 2 2 desk.old }
    requires place { HasPlace name desk.old.sections.rows }
    requires last { desk.old.sections.last + 1 < 2 ^ 64 }
    requires papers { AreFor (row_at name desk.old.remotes).size papers }
    requires closed { section_at name (state desk.old).sections ≡ Closed }
    ensures state { state desk.new ≡ ready_with at (section_opens write name (copy_bytes (row_at name desk.old.remotes).copy) (state desk.old)) }
    ensures room { HasRoom 0 0 1 desk.new }
{
    let shown = show_copy(desk, name, papers);
    open_ready(desk, at, name, write, shown);
}

/// The bytes of the copy that is here, if one is.
fn show_copy(desk: &Desk, name: Name, papers: Papers) -> Shown
    requires { AreFor (row_at name desk.now.remotes).size papers }
    ensures { result ≡ copy_bytes (row_at name desk.now.remotes).copy }
{
    let Papers { guard, began, end } = papers;
    match desk.remotes.bytes(name) {
        Some(bytes) => Shown::new(bytes, guard, began, end),
        None => Shown::new(&[], guard, began, end),
    }
}
