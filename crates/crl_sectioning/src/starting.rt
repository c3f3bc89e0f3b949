//! The start of a section.
ghost use Rattle.std.specs.Prelude.{◌≡◌, ◌+◌, ◌≤◌, ◌<◌, ◌^◌, IsSome, Some, None, true, false, length};
ghost use Rattle.crl_protocol.specs.Node.{home_of, is_mine, at_serial, section_opens, Wait};
ghost use Rattle.crl_protocol.specs.Sectioning.{starts, copy_bytes};
ghost use Rattle.crl_protocol.specs.Verdict.{verdict};
ghost use Rattle.crl_protocol.specs.World.{is_free};
ghost use Rattle.crl_safety.specs.Safety.{IsSafe};
ghost use Rattle.crl_table.specs.Tables.{table_of, HasPlace};
ghost use Rattle.crl_home.specs.HomesState.{table_at};
ghost use Rattle.crl_remote.specs.RemotesState.{row_at, IsThere};
ghost use Rattle.crl_desk.specs.Desks.{state, acted, HasRoom};
ghost use Rattle.crl_desk.specs.Kits.{IsSectionReady, once_opened};
ghost use Rattle.crl_sectioning.specs.Starts.{start_call, at_wait, HomeLets, RemoteLets, PapersFit, SectionMayOpen};

use crate::place::{Place, note_sections, place_of};
use crl_desk::{Desk, SectionKit, Shown, open_section};
use crl_guard::{Reading, Writing};
use crl_model::activity::{Answer, Awaited};
use crl_model::name::Name;
use crl_outbox::Paper;

/// A section of the region starts, to write or to read: it opens at once, or the node waits for it.
pub fn start(
    desk: &mut Desk,
    at: u64,
    name: Name,
    write: bool,
    kit: SectionKit,
) -> Answer<Reading, Writing>
    requires ready { IsSectionReady name kit desk.old }
    requires safe { IsSafe (state desk.old) }
    requires free { is_free (state desk.old).activity ≡ true }
    requires heard { verdict (state desk.old) (start_call write name) ≡ None }
    ensures state { state desk.new ≡ acted at (starts write name (state desk.old)) }
    ensures answer { result ≡ (starts write name (state desk.old)).answer }
    ensures room { HasRoom 0 0 1 desk.new }
{
    note_sections(desk, name);
    match place_of(desk, name) {
        Place::Home => start_at_home(desk, at, name, write, kit),
        Place::Elsewhere => start_elsewhere(desk, at, name, write, kit),
        Place::Nowhere => Answer::Done,
    }
}

/// The start where the node is the region's home.
#[tactic(auto, unfolding(crl_home::specs::Debts::ask_debt))]
fn start_at_home(
    desk: &mut Desk,
    at: u64,
    name: Name,
    write: bool,
    kit: SectionKit,
) -> Answer<Reading, Writing>
    requires ready { IsSectionReady name kit desk.old }
    requires last { desk.old.sections.last + 1 < 2 ^ 64 }
    requires mine { is_mine (state desk.old) name ≡ true }
    requires there { home_of (state desk.old) name ≡ Some (table_at name desk.old.homes.homes) }
    requires lets { HomeLets write (table_of desk.old.sections.rows name) desk.old.nodes (table_at name desk.old.homes.homes) }
    ensures state { state desk.new ≡ acted at (starts write name (state desk.old)) }
    ensures answer { result ≡ (starts write name (state desk.old)).answer }
    ensures room { HasRoom 0 0 1 desk.new }
{
    let SectionKit {
        guard,
        began,
        end,
        sheets,
    } = kit;
    if desk.homes.start(name, write, sheets, &mut desk.outbox) {
        open_at_home(desk, at, name, write, guard, began, end)
    } else {
        wait_for(desk, name)
    }
}

/// A section opens with the bytes that the home has.
#[tactic(auto, using(crate::proofs::Begins::may_begin))]
fn open_at_home(
    desk: &mut Desk,
    at: u64,
    name: Name,
    write: bool,
    guard: Paper,
    began: Paper,
    end: Paper,
) -> Answer<Reading, Writing>
    requires room { HasRoom 0 2 2 desk.old }
    requires place { HasPlace name desk.old.sections.rows }
    requires last { desk.old.sections.last + 1 < 2 ^ 64 }
    requires there { IsSome (at_serial name.serial desk.old.homes.homes) }
    requires papers { PapersFit (table_at name desk.old.homes.homes).size guard began end }
    requires may { SectionMayOpen write (table_at name desk.old.homes.homes).size (table_of desk.old.sections.rows name) }
    ensures state { state desk.new ≡ once_opened at (section_opens write name (table_at name desk.old.homes.homes).bytes (state desk.old)) }
    ensures answer { result ≡ (section_opens write name (table_at name desk.old.homes.homes).bytes (state desk.old)).answer }
    ensures room { HasRoom 0 0 1 desk.new }
{
    let shown = Shown::new(desk.homes.bytes(name), guard, began, end);
    open_section(desk, at, name, write, shown)
}

/// The start where another node is the region's home.
fn start_elsewhere(
    desk: &mut Desk,
    at: u64,
    name: Name,
    write: bool,
    kit: SectionKit,
) -> Answer<Reading, Writing>
    requires ready { IsSectionReady name kit desk.old }
    requires last { desk.old.sections.last + 1 < 2 ^ 64 }
    requires away { is_mine (state desk.old) name ≡ false }
    requires there { IsThere name desk.old.remotes }
    requires lets { RemoteLets write (table_of desk.old.sections.rows name) (row_at name desk.old.remotes) }
    ensures state { state desk.new ≡ acted at (starts write name (state desk.old)) }
    ensures answer { result ≡ (starts write name (state desk.old)).answer }
    ensures room { HasRoom 0 0 1 desk.new }
{
    let SectionKit {
        guard,
        began,
        end,
        sheets,
    } = kit;
    if desk.remotes.start(name, write, sheets, &mut desk.outbox) {
        open_elsewhere(desk, at, name, write, guard, began, end)
    } else {
        wait_for(desk, name)
    }
}

/// A section opens with the bytes of the copy that is here.
#[tactic(auto, using(crate::proofs::Begins::may_begin))]
fn open_elsewhere(
    desk: &mut Desk,
    at: u64,
    name: Name,
    write: bool,
    guard: Paper,
    began: Paper,
    end: Paper,
) -> Answer<Reading, Writing>
    requires room { HasRoom 0 2 2 desk.old }
    requires place { HasPlace name desk.old.sections.rows }
    requires last { desk.old.sections.last + 1 < 2 ^ 64 }
    requires copy { IsSome (row_at name desk.old.remotes).copy }
    requires papers { PapersFit (row_at name desk.old.remotes).size guard began end }
    requires may { SectionMayOpen write (row_at name desk.old.remotes).size (table_of desk.old.sections.rows name) }
    ensures state { state desk.new ≡ once_opened at (section_opens write name (copy_bytes (row_at name desk.old.remotes).copy) (state desk.old)) }
    ensures answer { result ≡ (section_opens write name (copy_bytes (row_at name desk.old.remotes).copy) (state desk.old)).answer }
    ensures room { HasRoom 0 0 1 desk.new }
{
    let shown = show_copy(desk, name, guard, began, end);
    open_section(desk, at, name, write, shown)
}

/// The bytes of the copy that is here.
fn show_copy(desk: &Desk, name: Name, guard: Paper, began: Paper, end: Paper) -> Shown
    requires copy { IsSome (row_at name desk.now.remotes).copy }
    requires papers { PapersFit (row_at name desk.now.remotes).size guard began end }
    ensures bytes { result ≡ copy_bytes (row_at name desk.now.remotes).copy }
    ensures sized { length result ≡ (row_at name desk.now.remotes).size }
{
    Shown::new(desk.remotes.bytes(name).unwrap(), guard, began, end)
}

/// The node waits for a section of the region.
fn wait_for(desk: &mut Desk, name: Name) -> Answer<Reading, Writing>
    requires room { HasRoom 0 0 1 desk.old }
    ensures state { state desk.new ≡ at_wait name (state desk.old) }
    ensures answer { result ≡ Wait }
    ensures room { HasRoom 0 0 1 desk.new }
{
    desk.standing.wait(Awaited::ForSection { name });
    Answer::Wait
}
