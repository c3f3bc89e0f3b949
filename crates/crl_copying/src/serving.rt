//! What comes to the home of a region: an ask, a return, a release. It serves its queue, and its own section opens if that
//! was served.
ghost use Rattle.std.specs.Prelude.{◌≡◌, ◌≢◌, ◌+◌, ◌<◌, ◌^◌, IsSome, true};
ghost use Rattle.crl_model.specs.declared.directory.Section.TheVariants.{Closed};
ghost use Rattle.crl_model.specs.declared.message.Kind.TheVariants as kind;
ghost use Rattle.crl_protocol.specs.Handlers.{node_handles};
ghost use Rattle.crl_protocol.specs.Node.{at_serial};
ghost use Rattle.crl_protocol.specs.Sections.{section_at};
ghost use Rattle.crl_home.specs.HomesState.{table_at};
ghost use Rattle.crl_safety.specs.Safety.{IsSafe};
ghost use Rattle.crl_safety.specs.Tests.{MeetsTest};
ghost use Rattle.crl_table.specs.Tables.{HasPlace};
ghost use Rattle.crl_desk.specs.Desks.{state, acted, HasRoom};
ghost use Rattle.crl_desk.specs.Kits.{IsSectionReady};
ghost use Rattle.crl_copying.specs.Serving.{own_section, ready_with, if_served, AreFor};

use crate::opening::{Papers, open_ready};
use crl_desk::{Desk, SectionKit, Shown};
use crl_model::NodeNo;
use crl_model::bytes::Bytes;
use crl_model::directory::Asked;
use crl_model::name::Name;

/// An ask of another node comes, with a kit for the home's own section.
pub fn take_ask(
    desk: &mut Desk,
    at: u64,
    from: NodeNo,
    name: Name,
    write: bool,
    have: u64,
    kit: SectionKit,
)
    requires ready { IsSectionReady name kit desk.old }
    requires safe { IsSafe (state desk.old) }
    requires node { from < desk.old.nodes }
    requires other { from ≢ desk.old.me }
    requires meets { MeetsTest (state desk.old) from (kind.Ask name write have) }
    ensures state { state desk.new ≡ acted at (node_handles from (kind.Ask name write have) (state desk.old)) }
    ensures room { HasRoom 0 0 1 desk.new }
{
    let SectionKit {
        guard,
        began,
        end,
        sheets,
    } = kit;
    let asked = Asked {
        node: from,
        write,
        have,
    };
    let opened = desk.homes.take_ask(name, asked, sheets, &mut desk.outbox);
    open_if_served(desk, at, name, opened, Papers { guard, began, end });
}

/// A copy comes back, with its bytes if the home may lack them.
pub fn take_return(
    desk: &mut Desk,
    at: u64,
    from: NodeNo,
    name: Name,
    version: u64,
    bytes: Option<Bytes>,
    kit: SectionKit,
)
    requires ready { IsSectionReady name kit desk.old }
    requires safe { IsSafe (state desk.old) }
    requires node { from < desk.old.nodes }
    requires meets { MeetsTest (state desk.old) from (kind.Return name version bytes) }
    ensures state { state desk.new ≡ acted at (node_handles from (kind.Return name version bytes) (state desk.old)) }
    ensures room { HasRoom 0 0 1 desk.new }
{
    let SectionKit {
        guard,
        began,
        end,
        sheets: _,
    } = kit;
    let opened = desk.homes.take_return(name, from, bytes, &mut desk.outbox);
    open_if_served(desk, at, name, opened, Papers { guard, began, end });
}

/// An exclusive copy became a shared one, and these are its bytes.
pub fn take_release(
    desk: &mut Desk,
    at: u64,
    from: NodeNo,
    name: Name,
    version: u64,
    bytes: Bytes,
    kit: SectionKit,
)
    requires ready { IsSectionReady name kit desk.old }
    requires safe { IsSafe (state desk.old) }
    requires node { from < desk.old.nodes }
    requires meets { MeetsTest (state desk.old) from (kind.Release name version bytes) }
    ensures state { state desk.new ≡ acted at (node_handles from (kind.Release name version bytes) (state desk.old)) }
    ensures room { HasRoom 0 0 1 desk.new }
{
    let SectionKit {
        guard,
        began,
        end,
        sheets: _,
    } = kit;
    let opened = desk
        .homes
        .take_release(name, from, version, bytes, &mut desk.outbox);
    open_if_served(desk, at, name, opened, Papers { guard, began, end });
}

/// The home's own section opens if it was served, and then the node is ready with it.
fn open_if_served(desk: &mut Desk, at: u64, name: Name, opened: bool, papers: Papers)
    requires room { HasRoom 0 2 2 desk.old }
    requires place { HasPlace name desk.old.sections.rows }
    requires last { desk.old.sections.last + 1 < 2 ^ 64 }
    requires there { IsSome (at_serial name.serial desk.old.homes.homes) }
    requires papers { AreFor (table_at name desk.old.homes.homes).size papers }
    requires closed { opened ≡ true → section_at name (state desk.old).sections ≡ Closed }
    ensures state { state desk.new ≡ if_served at name opened (state desk.old) }
    ensures room { HasRoom 0 0 1 desk.new }
{
    if opened {
        open_own(desk, at, name, papers);
    }
}

/// The home's own section opens, with the bytes that the home has.
fn open_own(desk: &mut Desk, at: u64, name: Name, papers: Papers)
    requires room { HasRoom 0 2 2 desk.old }
    requires place { HasPlace name desk.old.sections.rows }
    requires last { desk.old.sections.last + 1 < 2 ^ 64 }
    requires there { IsSome (at_serial name.serial desk.old.homes.homes) }
    requires papers { AreFor (table_at name desk.old.homes.homes).size papers }
    requires closed { section_at name (state desk.old).sections ≡ Closed }
    ensures state { state desk.new ≡ ready_with at (own_section name (table_at name desk.old.homes.homes) (state desk.old)) }
    ensures room { HasRoom 0 0 1 desk.new }
{
    let Papers { guard, began, end } = papers;
    let write = desk.homes.is_writing(name);
    let shown = Shown::new(desk.homes.bytes(name), guard, began, end);
    open_ready(desk, at, name, write, shown);
}
