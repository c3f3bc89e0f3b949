//! A map.
ghost use Rattle.std.specs.Prelude.{◌≡◌, ◌==◌, ◌+◌, ◌<◌, ◌≤◌, OnOk, None, false};
ghost use Rattle.crl_model.specs.declared.call.Call.TheVariants.{Map};
ghost use Rattle.crl_table.specs.Tables.{table_of, HasPlace};
ghost use Rattle.crl_protocol.specs.Lifetimes as lifetimes;
ghost use Rattle.crl_protocol.specs.Node as node;
ghost use Rattle.crl_protocol.specs.Calls.{size_of, maps_in, maps_over, maps_cached};
ghost use Rattle.crl_protocol.specs.Verdict.{verdict};
ghost use Rattle.crl_desk.specs.Desks.{state, acted, HasRoom};
ghost use Rattle.crl_naming.specs.Readied.{MapIsReady};

use crl_desk::Desk;
use crl_guard::{Reading, Writing};
use crl_model::OutOfMemory;
use crl_model::activity::{Answer, Awaited};
use crl_model::entry::{Entry, What};
use crl_model::mapping::Mapping;
use crl_model::message::{Kind, Message};
use crl_model::name::Name;

/// What a map of the name uses up.
///
/// # Errors
///
/// `OutOfMemory`.
pub fn ready_map(desk: &mut Desk, name: Name) -> Result<(), OutOfMemory>
    requires room { HasRoom 0 0 0 desk.old }
    ensures state { state desk.new ≡ state desk.old }
    ensures room { HasRoom 0 0 0 desk.new }
    ensures ready { OnOk result (MapIsReady name desk.new) }
{
    desk.make_room(1, 1, 1)?;
    desk.maps.ready(&name)
}

/// The mapping of a new region of this size, which is mapped once.
pub(crate) fn new_mapping(size: u32, doomed: bool) -> Mapping
    ensures { result ≡ lifetimes.new_mapping size doomed }
{
    Mapping {
        size,
        count: 1,
        doomed,
    }
}

/// The mapping of the name, if it is mapped here.
pub(crate) fn mapping_of(desk: &Desk, name: Name) -> Option<Mapping>
    ensures { result ≡ table_of desk.now.maps name }
{
    match desk.maps.get(&name) {
        Some(mapping) => Some(*mapping),
        None => None,
    }
}

/// The size of the node's own region with this name, 0 if there is none.
pub(crate) fn own_size(desk: &Desk, name: Name) -> u32
    ensures { result ≡ size_of (node.home_of (state desk.now) name) }
{
    if name.home != desk.me {
        return 0;
    }
    match desk.homes.size(name) {
        Some(size) => size,
        None => 0,
    }
}

/// The name is mapped so from now on.
fn map_in(desk: &mut Desk, at: u64, name: Name, mapping: Mapping) -> Answer<Reading, Writing>
    requires ready { MapIsReady name desk.old }
    ensures state { state desk.new ≡ acted at (maps_in name mapping (state desk.old)) }
    ensures answer { result ≡ node.Mapped name mapping.size }
    ensures room { HasRoom 0 0 1 desk.new }
{
    desk.maps.put(&name, mapping);
    desk.journal.record(
        at,
        Entry {
            node: desk.me,
            what: What::Map {
                name,
                size: mapping.size,
            },
        },
    );
    Answer::Mapped {
        name,
        size: mapping.size,
    }
}

/// The home of the name is asked, and the node waits.
fn ask_home(desk: &mut Desk, at: u64, name: Name) -> Answer<Reading, Writing>
    requires ready { MapIsReady name desk.old }
    ensures state { state desk.new ≡ acted at (maps_cached name None (state desk.old)) }
    ensures answer { result ≡ node.Wait }
    ensures room { HasRoom 0 0 1 desk.new }
{
    desk.standing.wait(Awaited::ForMap {
        name,
        purged: false,
    });
    desk.outbox.post(Message {
        sender: desk.me,
        addressee: name.home,
        kind: Kind::InfoAsk { name },
    });
    Answer::Wait
}

/// A map of a region of another home that isn't mapped here: it may be cached.
fn map_cached(desk: &mut Desk, at: u64, name: Name) -> Answer<Reading, Writing>
    requires ready { MapIsReady name desk.old }
    ensures state { state desk.new ≡ acted at (maps_cached name (lifetimes.cached_size name desk.old.cache.list) (state desk.old)) }
    ensures answer { result ≡ (maps_cached name (lifetimes.cached_size name desk.old.cache.list) (state desk.old)).answer }
    ensures room { HasRoom 0 0 1 desk.new }
{
    match desk.cache.size_of(name) {
        Some(size) => {
            let _ = desk.cache.take_back(name);
            map_in(desk, at, name, new_mapping(size, false))
        }
        None => ask_home(desk, at, name),
    }
}

/// A map of a region that isn't mapped here.
fn map_new(desk: &mut Desk, at: u64, name: Name) -> Answer<Reading, Writing>
    requires ready { MapIsReady name desk.old }
    ensures state { state desk.new ≡ acted at (maps_over name None (state desk.old)) }
    ensures answer { result ≡ (maps_over name None (state desk.old)).answer }
    ensures room { HasRoom 0 0 1 desk.new }
{
    if name.home == desk.me {
        let size = own_size(desk, name);
        return map_in(desk, at, name, new_mapping(size, false));
    }
    map_cached(desk, at, name)
}

/// The mapping with one map more.
fn one_more(mapping: Mapping) -> Mapping
    requires { (mapping.count == node.COUNT_LIMIT) ≡ false }
    ensures { result ≡ record mapping { count = mapping.count + 1 } }
{
    Mapping {
        size: mapping.size,
        count: mapping.count + 1,
        doomed: mapping.doomed,
    }
}

/// A map that isn't refused.
pub fn map(desk: &mut Desk, at: u64, name: Name) -> Answer<Reading, Writing>
    requires ready { MapIsReady name desk.old }
    requires verdict { verdict (state desk.old) (Map name) ≡ None }
    ensures state { state desk.new ≡ acted at (maps_over name (table_of desk.old.maps name) (state desk.old)) }
    ensures answer { result ≡ (maps_over name (table_of desk.old.maps name) (state desk.old)).answer }
    ensures room { HasRoom 0 0 1 desk.new }
{
    match mapping_of(desk, name) {
        Some(mapping) => map_in(desk, at, name, one_more(mapping)),
        None => map_new(desk, at, name),
    }
}
