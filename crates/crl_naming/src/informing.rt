//! A node maps a region of another home: the home is asked, and answers.
ghost use Rattle.std.specs.Prelude.{◌≡◌, ◌+◌, ◌<◌, ◌≤◌, OnOk};
ghost use Rattle.crl_model.specs.declared.call.CallKind.TheVariants.{Map};
ghost use Rattle.crl_model.specs.declared.message.Told.TheVariants.{Live};
ghost use Rattle.crl_protocol.specs.Node.{lifetime_of};
ghost use Rattle.crl_protocol.specs.Handlers as handlers;
ghost use Rattle.crl_desk.specs.Desks.{state, acted, HasRoom};
ghost use Rattle.crl_naming.specs.Lives.{with_asker, refused_entry};
ghost use Rattle.crl_naming.specs.Readied.{InfoIsReady};

use crate::mapping::{new_mapping, own_size};
use crl_desk::Desk;
use crl_model::activity::{Answer, Awaited};
use crl_model::call::{CallKind, Refusal};
use crl_model::entry::{Entry, Place, What};
use crl_model::message::{Kind, Message, Told};
use crl_model::name::Name;
use crl_model::stage::Stage;
use crl_model::{NodeNo, OutOfMemory};

/// What the answer to a node that maps a region uses up.
///
/// # Errors
///
/// `OutOfMemory`.
pub fn ready_info_ask(desk: &mut Desk) -> Result<(), OutOfMemory>
    requires room { HasRoom 0 0 0 desk.old }
    ensures state { state desk.new ≡ state desk.old }
    ensures room { HasRoom 0 0 0 desk.new }
    ensures ready { OnOk result (HasRoom 1 1 1 desk.new) }
{
    desk.make_room(1, 1, 1)
}

/// Where the name stands, as far as this node is its home.
pub(crate) fn stage_of(desk: &Desk, name: Name) -> Stage
    ensures { result ≡ (lifetime_of (state desk.now) name).stage }
{
    if name.home == desk.me {
        desk.stages.stage(name.serial)
    } else {
        Stage::Unknown
    }
}

/// What the home says of a region of this size that stands here.
fn told_by(stage: Stage, size: u32) -> Told
    ensures { result ≡ handlers.told_by_stage stage size }
{
    match stage {
        Stage::Unknown => Told::Unknown,
        Stage::Live => Told::Live { size },
        Stage::Going(_) | Stage::Gone => Told::Deleted,
    }
}

/// The entry of the map of a node that is told so.
fn map_entry(from: NodeNo, name: Name, told: Told) -> Entry
    ensures { result ≡ handlers.map_entry from name told }
{
    match told {
        Told::Live { size } => Entry {
            node: from,
            what: What::Map { name, size },
        },
        Told::Unknown => map_refused(from, name, Refusal::Unknown),
        Told::Deleted => map_refused(from, name, Refusal::Deleted),
    }
}

/// The entry of a map that the home refuses.
fn map_refused(from: NodeNo, name: Name, why: Refusal) -> Entry
    ensures { result ≡ refused_entry from Map name why }
{
    Entry {
        node: from,
        what: What::Refused {
            kind: CallKind::Map,
            place: Place::Region(name),
            why,
        },
    }
}

/// The home notes that the node asked for the region.
fn add_asker(desk: &mut Desk, from: NodeNo, name: Name)
    requires room { HasRoom 1 1 1 desk.old }
    requires from { from < desk.old.nodes }
    ensures state { state desk.new ≡ with_asker from name (state desk.old) }
    ensures room { HasRoom 1 1 1 desk.new }
{
    if name.home == desk.me {
        desk.stages.add_asker(name.serial, from);
    }
}

/// A node maps the region, and asks its home.
pub fn take_info_ask(desk: &mut Desk, at: u64, from: NodeNo, name: Name)
    requires room { HasRoom 1 1 1 desk.old }
    requires from { from < desk.old.nodes }
    ensures state { state desk.new ≡ acted at (handlers.takes_info_ask from name (state desk.old)) }
    ensures room { HasRoom 0 0 1 desk.new }
{
    let told = told_by(stage_of(desk, name), own_size(desk, name));
    add_asker(desk, from, name);
    desk.outbox.post(Message {
        sender: desk.me,
        addressee: from,
        kind: Kind::InfoIs { name, told },
    });
    desk.journal.record(at, map_entry(from, name, told));
}

/// What the answer of a region's home to a map uses up.
///
/// # Errors
///
/// `OutOfMemory`.
pub fn ready_info(desk: &mut Desk, name: Name) -> Result<(), OutOfMemory>
    requires room { HasRoom 0 0 0 desk.old }
    ensures state { state desk.new ≡ state desk.old }
    ensures room { HasRoom 0 0 0 desk.new }
    ensures ready { OnOk result (InfoIsReady name desk.new) }
{
    desk.make_room(0, 0, 1)?;
    desk.maps.ready(&name)?;
    desk.remotes.ready_add(name)
}

/// The map that waits is done, and the region, of which no copy is here, is mapped.
fn map_told(desk: &mut Desk, name: Name, size: u32, doomed: bool)
    requires ready { InfoIsReady name desk.old }
    ensures state { state desk.new ≡ handlers.after_info name doomed (Live size) (state desk.old) }
    ensures room { HasRoom 0 0 1 desk.new }
{
    desk.remotes.add(name, size);
    desk.maps.put(&name, new_mapping(size, doomed));
    desk.standing.ready(Answer::Mapped { name, size });
}

/// The map that waits is done or refused.
fn end_map(desk: &mut Desk, name: Name, told: Told, doomed: bool)
    requires ready { InfoIsReady name desk.old }
    ensures state { state desk.new ≡ handlers.after_info name doomed told (state desk.old) }
    ensures room { HasRoom 0 0 1 desk.new }
{
    match told {
        Told::Live { size } => map_told(desk, name, size, doomed),
        Told::Unknown => desk.standing.ready(Answer::Refused(Refusal::Unknown)),
        Told::Deleted => desk.standing.ready(Answer::Refused(Refusal::Deleted)),
    }
}

/// The home of the region answers a map. If the node doesn't wait for just that, nothing happens.
pub fn take_info(desk: &mut Desk, at: u64, name: Name, told: Told)
    requires ready { InfoIsReady name desk.old }
    ensures state { state desk.new ≡ acted at (handlers.takes_info name told desk.old.standing (state desk.old)) }
    ensures room { HasRoom 0 0 1 desk.new }
{
    if let Some(
        Awaited::ForMap {
            name: waited,
            purged,
        },
    ) = desk.standing.awaited()
    {
        if waited == name {
            end_map(desk, name, told, purged);
        }
    }
}
