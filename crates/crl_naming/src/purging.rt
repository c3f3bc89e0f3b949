//! The nodes that asked for a region part with it, and its delete is done.
ghost use Rattle.std.specs.Prelude.{◌≡◌, ◌+◌, ◌∷◌, [], ◌<◌, ◌≤◌, IfOk, OnOk, None, Some, true};
ghost use Rattle.crl_model.specs.declared.message.Kind.TheVariants as kind;
ghost use Rattle.crl_model.specs.declared.message.DeleteTold.TheVariants as delete_told;
ghost use Rattle.crl_model.specs.declared.stage.Stage.TheVariants.{Going};
ghost use Rattle.crl_table.specs.Tables.{table_of};
ghost use Rattle.crl_protocol.specs.Lifetimes.{cached_size};
ghost use Rattle.crl_protocol.specs.Node as node;
ghost use Rattle.crl_protocol.specs.Handlers as handlers;
ghost use Rattle.crl_desk.specs.Desks.{state, acted, HasRoom};
ghost use Rattle.crl_naming.specs.Forgetting.{with_posts, name_if, purged_name, ForgetIsReady, PurgeIsReady};
ghost use Rattle.crl_naming.specs.Lives.{lifetime_without, posted_these};

use crate::deleting::is_gone;
use crate::forgetting::{forget, size_of_forgotten};
use crate::informing::stage_of;
use crate::mapping::mapping_of;
use crl_desk::Desk;
use crl_model::activity::{Answer, Awaited};
use crl_model::entry::{Entry, What};
use crl_model::mapping::Mapping;
use crl_model::message::{DeleteTold, Kind, Message};
use crl_model::name::Name;
use crl_model::stage::Stage;
use crl_model::{NodeNo, OutOfMemory};
use crl_outbox::Sheets;

/// The name that a purge of this one forgets.
fn purged(desk: &Desk, name: Name) -> Option<Name>
    ensures { result ≡ purged_name name (table_of desk.now.maps name) (state desk.now) }
{
    if mapping_of(desk, name).is_some() {
        return None;
    }
    match desk.cache.size_of(name) {
        Some(_) => Some(name),
        None => None,
    }
}

/// What a purge of the name uses up: paper for the region that it may forget.
///
/// # Errors
///
/// `OutOfMemory`.
pub fn ready_purge(desk: &mut Desk, name: Name) -> Result<Sheets, OutOfMemory>
    requires room { HasRoom 0 0 0 desk.old }
    ensures state { state desk.new ≡ state desk.old }
    ensures room { HasRoom 0 0 0 desk.new }
    ensures ready { IfOk result (λ sheets. PurgeIsReady name sheets desk.new) }
{
    let size = size_of_forgotten(desk, purged(desk, name));
    let sheets = Sheets::new(desk.alloc, size)?;
    desk.make_room(sheets.pieces() as usize + 1, 1, 1)?;
    Ok(sheets)
}

/// The mapping, to be forgotten with its last unmap.
fn doomed(mapping: Mapping) -> Mapping
    ensures { result ≡ record mapping { doomed = true } }
{
    Mapping {
        size: mapping.size,
        count: mapping.count,
        doomed: true,
    }
}

/// If the node waits for a map of the name, the region will be doomed.
fn mark_map(desk: &mut Desk, name: Name)
    requires room { HasRoom 1 1 1 desk.old }
    ensures state { state desk.new ≡ record (state desk.old) { activity = handlers.purges_waiting name desk.old.standing } }
    ensures room { HasRoom 1 1 1 desk.new }
{
    if let Some(
        Awaited::ForMap {
            name: waited,
            purged,
        },
    ) = desk.standing.awaited()
    {
        desk.standing.wait(Awaited::ForMap {
            name: waited,
            purged: purged || waited == name,
        });
    }
}

/// A purge of a region that isn't mapped: if it is cached it is forgotten.
fn purge_unmapped(desk: &mut Desk, name: Name, sheets: Sheets)
    requires ready { ForgetIsReady (name_if name (cached_size name desk.old.cache.list)) sheets desk.old }
    ensures state { state desk.new ≡ with_posts (handlers.purge_over_cache name (cached_size name desk.old.cache.list) (state desk.old)) }
    ensures room { HasRoom 1 1 1 desk.new }
{
    if desk.cache.size_of(name).is_some() {
        let _ = desk.cache.take_back(name);
        forget(desk, name, sheets);
    } else {
        mark_map(desk, name);
    }
}

/// The region is dealt with as one whose delete began.
#[tactic(auto, using(crl_table::proofs::Laws::row_has_place))]
fn purge(desk: &mut Desk, name: Name, sheets: Sheets)
    requires ready { PurgeIsReady name sheets desk.old }
    ensures state { state desk.new ≡ with_posts (handlers.purge_over name (table_of desk.old.maps name) (state desk.old)) }
    ensures room { HasRoom 1 1 1 desk.new }
{
    match mapping_of(desk, name) {
        Some(mapping) => desk.maps.put(&name, doomed(mapping)),
        None => purge_unmapped(desk, name, sheets),
    }
}

/// The home of the region deletes it, and is answered.
pub fn take_purge(desk: &mut Desk, at: u64, from: NodeNo, name: Name, sheets: Sheets)
    requires ready { PurgeIsReady name sheets desk.old }
    ensures state { state desk.new ≡ acted at (handlers.takes_purge from name (state desk.old)) }
    ensures room { HasRoom 0 0 1 desk.new }
{
    let me = desk.me;
    purge(desk, name, sheets);
    desk.outbox.post(Message {
        sender: me,
        addressee: from,
        kind: Kind::Purged { name },
    });
}

/// What the answer to a purge uses up.
///
/// # Errors
///
/// `OutOfMemory`.
pub fn ready_purged(desk: &mut Desk) -> Result<(), OutOfMemory>
    requires room { HasRoom 0 0 0 desk.old }
    ensures state { state desk.new ≡ state desk.old }
    ensures room { HasRoom 0 0 0 desk.new }
    ensures ready { OnOk result (HasRoom 1 1 1 desk.new) }
{
    desk.make_room(1, 1, 1)
}

/// Whether a delete of the node's own region waits for this node.
fn is_missing(desk: &Desk, from: NodeNo, name: Name) -> bool
    requires room { HasRoom 1 1 1 desk.now }
    requires from { from < desk.now.nodes }
    ensures { result ≡ (node.lifetime_of (state desk.now) name).missing from }
{
    name.home == desk.me && desk.stages.is_missing(name.serial, from)
}

/// The node has parted with the region.
fn end_missing(desk: &mut Desk, from: NodeNo, name: Name)
    requires missing { (node.lifetime_of (state desk.old) name).missing from ≡ true }
    requires room { HasRoom 1 1 1 desk.old }
    ensures state { state desk.new ≡ node.with_lifetime name (lifetime_without from name (state desk.old)) (state desk.old) }
    ensures lifetime { node.lifetime_of (state desk.new) name ≡ lifetime_without from name (state desk.old) }
    ensures room { HasRoom 1 1 1 desk.new }
{
    desk.stages.take_purged(name.serial, from);
}

/// The delete of another node is done, and it is told.
fn tell_done(desk: &mut Desk, deleter: NodeNo, name: Name)
    requires room { HasRoom 1 1 1 desk.old }
    ensures state { state desk.new ≡ posted_these (node.message_to (state desk.old) deleter (kind.DeleteIs name delete_told.Done) ∷ []) (state desk.old) }
    ensures room { HasRoom 0 1 1 desk.new }
{
    desk.outbox.post(Message {
        sender: desk.me,
        addressee: deleter,
        kind: Kind::DeleteIs {
            name,
            told: DeleteTold::Done,
        },
    });
}

/// The delete by this node or by another one is done.
fn end_delete(desk: &mut Desk, at: u64, deleter: NodeNo, name: Name)
    requires room { HasRoom 1 1 1 desk.old }
    ensures state { state desk.new ≡ acted at (handlers.delete_done_at deleter name (state desk.old)) }
    ensures room { HasRoom 0 0 1 desk.new }
{
    if deleter == desk.me {
        desk.standing.ready(Answer::Done);
    } else {
        tell_done(desk, deleter, name);
    }
    desk.journal.record(
        at,
        Entry {
            node: deleter,
            what: What::Deleted { name },
        },
    );
}

/// The node has parted with the region, and with the last one the delete is done.
fn end_by(desk: &mut Desk, at: u64, from: NodeNo, deleter: NodeNo, name: Name)
    requires missing { (node.lifetime_of (state desk.old) name).missing from ≡ true }
    requires room { HasRoom 1 1 1 desk.old }
    ensures state { state desk.new ≡ acted at (handlers.ends_delete_by name (Going deleter) (lifetime_without from name (state desk.old)) (state desk.old)) }
    ensures room { HasRoom 0 0 1 desk.new }
{
    end_missing(desk, from, name);
    if is_gone(stage_of(desk, name)) {
        end_delete(desk, at, deleter, name);
    }
}

/// A node answers a purge. If no delete waits for it, nothing happens.
pub fn take_purged(desk: &mut Desk, at: u64, from: NodeNo, name: Name)
    requires room { HasRoom 1 1 1 desk.old }
    requires from { from < desk.old.nodes }
    ensures state { state desk.new ≡ acted at (handlers.takes_purged from name (state desk.old)) }
    ensures room { HasRoom 0 0 1 desk.new }
{
    if !is_missing(desk, from, name) {
        return;
    }
    if let Stage::Going(deleter) = stage_of(desk, name) {
        end_by(desk, at, from, deleter, name);
    }
}
