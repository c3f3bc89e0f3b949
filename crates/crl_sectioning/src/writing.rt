//! The end of a write section.
ghost use Rattle.std.specs.Prelude.{◌≡◌, ◌+◌, ◌<◌, ◌^◌, Some, None, true, false, length};
ghost use Rattle.crl_model.specs.declared.call.Call.TheVariants.{EndWrite};
ghost use Rattle.crl_model.specs.declared.entry.What.TheVariants as what;
ghost use Rattle.crl_protocol.specs.Node.{home_of, is_mine};
ghost use Rattle.crl_protocol.specs.Sectioning.{ends_write};
ghost use Rattle.crl_protocol.specs.Sections.{bytes_at, section_at, section_ends, is_writing};
ghost use Rattle.crl_protocol.specs.Verdict.{verdict};
ghost use Rattle.crl_safety.specs.Safety.{IsSafe};
ghost use Rattle.crl_home.specs.HomesState.{table_at};
ghost use Rattle.crl_remote.specs.Copies.{IsWriting};
ghost use Rattle.crl_remote.specs.RemotesState.{row_at, IsThere};
ghost use Rattle.crl_sections.specs.SectionsState.{sections_of, guards};
ghost use Rattle.crl_desk.specs.Desks.{state, acted, HasRoom};
ghost use Rattle.crl_sectioning.specs.Acts.{HasVersions, IsNotHere};

use crate::place::{Place, place_of};
use crate::recording::record;
use crl_desk::Desk;
use crl_guard::{Reading, Writing};
use crl_model::activity::Answer;
use crl_model::bytes::Bytes;
use crl_model::entry::What;
use crl_model::name::Name;
use crl_sections::Sections;

/// The write section of the region ends, and leaves these bytes: its guard's, as many as it began with.
pub fn end_write(desk: &mut Desk, at: u64, name: Name, bytes: Bytes) -> Answer<Reading, Writing>
    requires room { HasRoom 0 0 0 desk.old }
    requires safe { IsSafe (state desk.old) }
    requires heard { verdict (state desk.old) (EndWrite name bytes) ≡ None }
    requires sized { length bytes ≡ length (bytes_at name (state desk.old).sections) }
    ensures state { state desk.new ≡ acted at (ends_write name bytes (state desk.old)) }
    ensures answer { result ≡ (ends_write name bytes (state desk.old)).answer }
    ensures room { HasRoom 0 0 1 desk.new }
{
    match place_of(desk, name) {
        Place::Home => end_write_at_home(desk, at, name, bytes),
        Place::Elsewhere => end_write_elsewhere(desk, at, name, bytes),
        Place::Nowhere => end_write_nowhere(desk, at, name, bytes),
    }
}

/// The section is closed. Answers what its entry says.
fn close(sections: &mut Sections, name: Name, bytes: &Bytes) -> What
    requires writing { is_writing (section_at name (sections_of sections.old)) ≡ true }
    requires sized { length bytes.now ≡ length (bytes_at name (sections_of sections.old)) }
    ensures sections { sections_of sections.new ≡ section_ends name (sections_of sections.old) }
    ensures guards { guards sections.new + 1 ≡ guards sections.old }
    ensures what { result ≡ what.Write name (bytes_at name (sections_of sections.old)) bytes.now }
{
    let (before, paper) = sections.end_write(name);
    let after = paper.write(bytes.as_slice());
    What::Write {
        name,
        before,
        after,
    }
}

/// The end where the node is the region's home.
fn end_write_at_home(desk: &mut Desk, at: u64, name: Name, bytes: Bytes) -> Answer<Reading, Writing>
    requires room { HasRoom 0 0 0 desk.old }
    requires mine { is_mine (state desk.old) name ≡ true }
    requires there { home_of (state desk.old) name ≡ Some (table_at name desk.old.homes.homes) }
    requires writing { is_writing (section_at name (state desk.old).sections) ≡ true }
    requires versions { HasVersions (table_at name desk.old.homes.homes) }
    requires sized { length bytes ≡ length (bytes_at name (state desk.old).sections) }
    requires fits { length bytes ≡ (table_at name desk.old.homes.homes).size }
    ensures state { state desk.new ≡ acted at (ends_write name bytes (state desk.old)) }
    ensures answer { result ≡ (ends_write name bytes (state desk.old)).answer }
    ensures room { HasRoom 0 0 1 desk.new }
{
    let what = close(&mut desk.sections, name, &bytes);
    desk.homes.end_write(name, bytes, &mut desk.outbox);
    record(desk, at, what)
}

/// The end over a copy.
fn end_write_elsewhere(
    desk: &mut Desk,
    at: u64,
    name: Name,
    bytes: Bytes,
) -> Answer<Reading, Writing>
    requires room { HasRoom 0 0 0 desk.old }
    requires away { is_mine (state desk.old) name ≡ false }
    requires there { IsThere name desk.old.remotes }
    requires writing { is_writing (section_at name (state desk.old).sections) ≡ true }
    requires here { IsWriting (row_at name desk.old.remotes).here }
    requires sized { length bytes ≡ length (bytes_at name (state desk.old).sections) }
    requires fits { length bytes ≡ (row_at name desk.old.remotes).size }
    ensures state { state desk.new ≡ acted at (ends_write name bytes (state desk.old)) }
    ensures answer { result ≡ (ends_write name bytes (state desk.old)).answer }
    ensures room { HasRoom 0 0 1 desk.new }
{
    let what = close(&mut desk.sections, name, &bytes);
    desk.remotes.end_write(name, bytes, &mut desk.outbox);
    record(desk, at, what)
}

/// The end where the node doesn't have the region.
fn end_write_nowhere(desk: &mut Desk, at: u64, name: Name, bytes: Bytes) -> Answer<Reading, Writing>
    requires room { HasRoom 0 0 0 desk.old }
    requires nowhere { IsNotHere name (state desk.old) }
    requires writing { is_writing (section_at name (state desk.old).sections) ≡ true }
    requires sized { length bytes ≡ length (bytes_at name (state desk.old).sections) }
    ensures state { state desk.new ≡ acted at (ends_write name bytes (state desk.old)) }
    ensures answer { result ≡ (ends_write name bytes (state desk.old)).answer }
    ensures room { HasRoom 0 0 1 desk.new }
{
    let what = close(&mut desk.sections, name, &bytes);
    record(desk, at, what)
}
