//! The end of a read section.
ghost use Rattle.std.specs.Prelude.{◌≡◌, ◌+◌, ◌<◌, ◌^◌, Some, None, true, false, length};
ghost use Rattle.crl_model.specs.declared.call.Call.TheVariants.{EndRead};
ghost use Rattle.crl_protocol.specs.Home.{is_reading};
ghost use Rattle.crl_protocol.specs.Node.{home_of, is_mine};
ghost use Rattle.crl_protocol.specs.Sectioning.{ends_read};
ghost use Rattle.crl_protocol.specs.Sections.{bytes_at, section_at};
ghost use Rattle.crl_protocol.specs.Verdict.{verdict};
ghost use Rattle.crl_safety.specs.Safety.{IsSafe};
ghost use Rattle.crl_home.specs.HomesState.{table_at};
ghost use Rattle.crl_remote.specs.Copies.{IsReading};
ghost use Rattle.crl_remote.specs.RemotesState.{row_at, IsThere};
ghost use Rattle.crl_desk.specs.Desks.{state, acted, HasRoom};
ghost use Rattle.crl_sectioning.specs.Acts.{HasVersions, IsNotHere};

use crate::place::{Place, place_of};
use crate::recording::record;
use crl_desk::Desk;
use crl_guard::{Reading, Writing};
use crl_model::activity::Answer;
use crl_model::bytes::Bytes;
use crl_model::entry::What;
use crl_model::name::Name;

/// A read section of the region ends, which showed these bytes: its guard's.
pub fn end_read(desk: &mut Desk, at: u64, name: Name, seen: Bytes) -> Answer<Reading, Writing>
    requires room { HasRoom 0 0 0 desk.old }
    requires safe { IsSafe (state desk.old) }
    requires heard { verdict (state desk.old) (EndRead name) ≡ None }
    requires seen { seen ≡ bytes_at name (state desk.old).sections }
    ensures state { state desk.new ≡ acted at (ends_read name (state desk.old)) }
    ensures answer { result ≡ (ends_read name (state desk.old)).answer }
    ensures room { HasRoom 0 0 1 desk.new }
{
    match place_of(desk, name) {
        Place::Home => end_read_at_home(desk, at, name, seen),
        Place::Elsewhere => end_read_elsewhere(desk, at, name, seen),
        Place::Nowhere => end_read_nowhere(desk, at, name, seen),
    }
}

/// The end where the node is the region's home.
fn end_read_at_home(desk: &mut Desk, at: u64, name: Name, seen: Bytes) -> Answer<Reading, Writing>
    requires room { HasRoom 0 0 0 desk.old }
    requires mine { is_mine (state desk.old) name ≡ true }
    requires there { home_of (state desk.old) name ≡ Some (table_at name desk.old.homes.homes) }
    requires reading { is_reading (section_at name (state desk.old).sections) ≡ true }
    requires versions { HasVersions (table_at name desk.old.homes.homes) }
    requires seen { seen ≡ bytes_at name (state desk.old).sections }
    ensures state { state desk.new ≡ acted at (ends_read name (state desk.old)) }
    ensures answer { result ≡ (ends_read name (state desk.old)).answer }
    ensures room { HasRoom 0 0 1 desk.new }
{
    desk.sections.end_read(name);
    desk.homes.end_read(name, &mut desk.outbox);
    record(desk, at, What::Read { name, seen })
}

/// The end over a copy.
fn end_read_elsewhere(desk: &mut Desk, at: u64, name: Name, seen: Bytes) -> Answer<Reading, Writing>
    requires room { HasRoom 0 0 0 desk.old }
    requires away { is_mine (state desk.old) name ≡ false }
    requires there { IsThere name desk.old.remotes }
    requires reading { is_reading (section_at name (state desk.old).sections) ≡ true }
    requires here { IsReading (row_at name desk.old.remotes).here }
    requires seen { seen ≡ bytes_at name (state desk.old).sections }
    ensures state { state desk.new ≡ acted at (ends_read name (state desk.old)) }
    ensures answer { result ≡ (ends_read name (state desk.old)).answer }
    ensures room { HasRoom 0 0 1 desk.new }
{
    desk.sections.end_read(name);
    desk.remotes.end_read(name, &mut desk.outbox);
    record(desk, at, What::Read { name, seen })
}

/// The end where the node doesn't have the region.
fn end_read_nowhere(desk: &mut Desk, at: u64, name: Name, seen: Bytes) -> Answer<Reading, Writing>
    requires room { HasRoom 0 0 0 desk.old }
    requires nowhere { IsNotHere name (state desk.old) }
    requires reading { is_reading (section_at name (state desk.old).sections) ≡ true }
    requires seen { seen ≡ bytes_at name (state desk.old).sections }
    ensures state { state desk.new ≡ acted at (ends_read name (state desk.old)) }
    ensures answer { result ≡ (ends_read name (state desk.old)).answer }
    ensures room { HasRoom 0 0 1 desk.new }
{
    desk.sections.end_read(name);
    record(desk, at, What::Read { name, seen })
}
