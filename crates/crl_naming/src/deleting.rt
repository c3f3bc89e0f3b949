//! A delete.
ghost use Rattle.std.specs.Prelude.{◌≡◌, ◌+◌, ◌++◌, ◌∷◌, [], ◌<◌, ◌≤◌, OnOk, None, true, false, length};
ghost use Rattle.crl_model.specs.declared.call.Call.TheVariants.{Delete};
ghost use Rattle.crl_model.specs.declared.message.Kind.TheVariants as kind;
ghost use Rattle.crl_model.specs.declared.stage.Stage.TheVariants.{Live};
ghost use Rattle.crl_protocol.specs.Parcels.{pieces_in};
ghost use Rattle.crl_protocol.specs.Node as node;
ghost use Rattle.crl_protocol.specs.Calls.{deletes, deletes_own};
ghost use Rattle.crl_protocol.specs.Calls as calls;
ghost use Rattle.crl_protocol.specs.Handlers as handlers;
ghost use Rattle.crl_protocol.specs.Verdict.{verdict};
ghost use Rattle.crl_stages.specs.StagesState.{lifetimes_of};
ghost use Rattle.crl_desk.specs.Desks.{state, acted, HasRoom};
ghost use Rattle.crl_naming.specs.Lives.{lifetime_in_delete, purge_if, purges_for, recorded_one, posted_these, deleting_by, deleted_by, askers_told};

use crate::informing::stage_of;
use crl_desk::Desk;
use crl_guard::{Reading, Writing};
use crl_model::activity::{Answer, Awaited};
use crl_model::call::{CallKind, Refusal};
use crl_model::entry::{Entry, Place, What};
use crl_model::message::{DeleteTold, Kind, Message};
use crl_model::name::Name;
use crl_model::stage::Stage;
use crl_model::{NodeNo, OutOfMemory};
use crl_outbox::Mailbox;
use crl_stages::Stages;

/// What the delete of a region uses up, of this node or of one that asks for it.
///
/// # Errors
///
/// `OutOfMemory`.
pub fn ready_delete(desk: &mut Desk) -> Result<(), OutOfMemory>
    requires room { HasRoom 0 0 0 desk.old }
    ensures state { state desk.new ≡ state desk.old }
    ensures room { HasRoom 0 0 0 desk.new }
    ensures ready { OnOk result (HasRoom 64 2 1 desk.new) }
{
    desk.make_room(64, 2, 1)
}

/// Tells the node that the region is being deleted, if it asked for the region.
fn post_purge(me: NodeNo, to: NodeNo, name: Name, stages: &Stages, out: &mut Mailbox)
    requires node { to < stages.now.nodes }
    requires room { 0 < out.old.room }
    ensures posts { out.new.list ≡ out.old.list ++ pieces_in (purge_if me name to ((lifetimes_of stages.now name.serial).asked to)) }
    ensures room { out.old.room ≤ out.new.room + 1 }
{
    if stages.is_asked(name.serial, to) {
        out.post(Message {
            sender: me,
            addressee: to,
            kind: Kind::Purge { name },
        });
    }
}

/// Tells the nodes that asked for the region, by number.
fn post_purges(me: NodeNo, nodes: NodeNo, name: Name, stages: &Stages, out: &mut Mailbox)
    requires nodes { stages.now.nodes ≡ nodes }
    requires room { nodes ≤ out.old.room }
    ensures posts { out.new.list ≡ out.old.list ++ pieces_in (purges_for me name nodes (lifetimes_of stages.now name.serial).asked) }
    ensures room { out.old.room ≤ out.new.room + nodes }
{
    for to in 0..nodes {
        post_purge(me, to, name, stages, out);
    }
}

/// The delete of the node's own region begins.
#[tactic(auto, using(crate::proofs::Deletes::live_is_mine))]
fn begin(desk: &mut Desk, deleter: NodeNo, name: Name)
    requires live { (node.lifetime_of (state desk.old) name).stage ≡ Live }
    requires room { HasRoom 64 2 1 desk.old }
    ensures state { state desk.new ≡ node.with_lifetime name (lifetime_in_delete deleter name (state desk.old)) (state desk.old) }
    ensures lifetime { node.lifetime_of (state desk.new) name ≡ lifetime_in_delete deleter name (state desk.old) }
    ensures mine { node.is_mine (state desk.new) name ≡ true }
    ensures room { HasRoom 64 2 1 desk.new }
{
    desk.stages.begin_delete(name.serial, deleter);
}

/// Writes that the delete began, and that it is done.
fn finish_at_once(desk: &mut Desk, at: u64, deleter: NodeNo, name: Name)
    requires room { HasRoom 64 2 1 desk.old }
    ensures state { state desk.new ≡ recorded_one at (deleted_by deleter name) (recorded_one at (deleting_by deleter name) (state desk.old)) }
    ensures room { HasRoom 64 0 1 desk.new }
{
    desk.journal.record(
        at,
        Entry {
            node: deleter,
            what: What::Deleting { name },
        },
    );
    desk.journal.record(
        at,
        Entry {
            node: deleter,
            what: What::Deleted { name },
        },
    );
}

/// Writes that the delete began, and tells the nodes that asked for the region.

fn tell_askers(desk: &mut Desk, at: u64, deleter: NodeNo, name: Name)
    requires mine { node.is_mine (state desk.old) name ≡ true }
    requires room { HasRoom 64 2 1 desk.old }
    ensures state { state desk.new ≡ askers_told at deleter name (state desk.old) }
    ensures room { HasRoom 0 1 1 desk.new }
{
    post_purges(desk.me, desk.nodes, name, &desk.stages, &mut desk.outbox);
    desk.journal.record(
        at,
        Entry {
            node: deleter,
            what: What::Deleting { name },
        },
    );
}

/// Whether a delete is done.
pub(crate) fn is_gone(stage: Stage) -> bool
    ensures { result ≡ calls.is_gone stage }
{
    matches!(stage, Stage::Gone)
}

/// The delete of the node's own region.
fn delete_own(desk: &mut Desk, at: u64, name: Name) -> Answer<Reading, Writing>
    requires live { (node.lifetime_of (state desk.old) name).stage ≡ Live }
    requires room { HasRoom 64 2 1 desk.old }
    ensures state { state desk.new ≡ acted at (deletes_own name (lifetime_in_delete desk.old.me name (state desk.old)) (state desk.old)) }
    ensures answer { result ≡ (deletes_own name (lifetime_in_delete desk.old.me name (state desk.old)) (state desk.old)).answer }
    ensures room { HasRoom 0 0 1 desk.new }
{
    begin(desk, desk.me, name);
    if is_gone(stage_of(desk, name)) {
        finish_at_once(desk, at, desk.me, name);
        return Answer::Done;
    }
    tell_askers(desk, at, desk.me, name);
    desk.standing.wait(Awaited::ForDelete { name });
    Answer::Wait
}

/// A delete of another home's region: the home is asked, and the node waits.
fn ask_delete(desk: &mut Desk, at: u64, name: Name) -> Answer<Reading, Writing>
    requires away { node.is_mine (state desk.old) name ≡ false }
    requires room { HasRoom 64 2 1 desk.old }
    ensures state { state desk.new ≡ acted at (deletes name (state desk.old)) }
    ensures answer { result ≡ (deletes name (state desk.old)).answer }
    ensures room { HasRoom 0 0 1 desk.new }
{
    desk.standing.wait(Awaited::ForDelete { name });
    desk.outbox.post(Message {
        sender: desk.me,
        addressee: name.home,
        kind: Kind::DeleteAsk { name },
    });
    Answer::Wait
}

/// A delete that isn't refused.
pub fn delete(desk: &mut Desk, at: u64, name: Name) -> Answer<Reading, Writing>
    requires room { HasRoom 64 2 1 desk.old }
    requires verdict { verdict (state desk.old) (Delete name) ≡ None }
    ensures state { state desk.new ≡ acted at (deletes name (state desk.old)) }
    ensures answer { result ≡ (deletes name (state desk.old)).answer }
    ensures room { HasRoom 0 0 1 desk.new }
{
    if name.home == desk.me {
        delete_own(desk, at, name)
    } else {
        ask_delete(desk, at, name)
    }
}

/// The delete of another node of a region that is live here.
fn delete_for(desk: &mut Desk, at: u64, from: NodeNo, name: Name)
    requires live { (node.lifetime_of (state desk.old) name).stage ≡ Live }
    requires room { HasRoom 64 2 1 desk.old }
    ensures state { state desk.new ≡ acted at (handlers.begins_delete from name (lifetime_in_delete from name (state desk.old)) (state desk.old)) }
    ensures room { HasRoom 0 0 1 desk.new }
{
    begin(desk, from, name);
    if is_gone(stage_of(desk, name)) {
        finish_at_once(desk, at, from, name);
        post_told(desk, from, name, DeleteTold::Done);
    } else {
        tell_askers(desk, at, from, name);
    }
}

/// Tells a node what became of its delete.
fn post_told(desk: &mut Desk, to: NodeNo, name: Name, told: DeleteTold)
    requires room { HasRoom 64 0 1 desk.old }
    ensures state { state desk.new ≡ posted_these (node.message_to (state desk.old) to (kind.DeleteIs name told) ∷ []) (state desk.old) }
    ensures room { HasRoom 0 0 1 desk.new }
{
    desk.outbox.post(Message {
        sender: desk.me,
        addressee: to,
        kind: Kind::DeleteIs { name, told },
    });
}

/// The home refuses a node's delete.
fn refuse_delete(desk: &mut Desk, at: u64, from: NodeNo, name: Name, why: Refusal, told: DeleteTold)
    requires room { HasRoom 64 2 1 desk.old }
    ensures state { state desk.new ≡ acted at (handlers.refuses_delete from name why told (state desk.old)) }
    ensures room { HasRoom 0 0 1 desk.new }
{
    desk.outbox.post(Message {
        sender: desk.me,
        addressee: from,
        kind: Kind::DeleteIs { name, told },
    });
    desk.journal.record(
        at,
        Entry {
            node: from,
            what: What::Refused {
                kind: CallKind::Delete,
                place: Place::Region(name),
                why,
            },
        },
    );
}

/// A node deletes the region, and asks its home.
pub fn take_delete_ask(desk: &mut Desk, at: u64, from: NodeNo, name: Name)
    requires room { HasRoom 64 2 1 desk.old }
    ensures state { state desk.new ≡ acted at (handlers.takes_delete_ask from name (node.lifetime_of (state desk.old) name).stage (state desk.old)) }
    ensures room { HasRoom 0 0 1 desk.new }
{
    match stage_of(desk, name) {
        Stage::Unknown => refuse_delete(
            desk,
            at,
            from,
            name,
            Refusal::Unknown,
            DeleteTold::Unknown,
        ),
        Stage::Live => delete_for(desk, at, from, name),
        Stage::Going(_) | Stage::Gone => refuse_delete(
            desk,
            at,
            from,
            name,
            Refusal::Deleted,
            DeleteTold::Deleted,
        ),
    }
}

/// What the answer of a region's home to a delete uses up.
///
/// # Errors
///
/// `OutOfMemory`.
pub fn ready_delete_told(desk: &mut Desk) -> Result<(), OutOfMemory>
    requires room { HasRoom 0 0 0 desk.old }
    ensures state { state desk.new ≡ state desk.old }
    ensures room { HasRoom 0 0 0 desk.new }
    ensures ready { OnOk result (HasRoom 0 0 1 desk.new) }
{
    desk.make_room(0, 0, 1)
}

/// The answer of a delete of which the home told this.
fn delete_answer(told: DeleteTold) -> Answer<Reading, Writing>
    ensures { result ≡ handlers.delete_answer told }
{
    match told {
        DeleteTold::Done => Answer::Done,
        DeleteTold::Unknown => Answer::Refused(Refusal::Unknown),
        DeleteTold::Deleted => Answer::Refused(Refusal::Deleted),
    }
}

/// The home of the region answers a delete. If the node doesn't wait for just that, nothing happens.
pub fn take_delete_told(desk: &mut Desk, at: u64, name: Name, told: DeleteTold)
    requires room { HasRoom 0 0 1 desk.old }
    ensures state { state desk.new ≡ acted at (handlers.takes_delete_told name told desk.old.standing (state desk.old)) }
    ensures room { HasRoom 0 0 1 desk.new }
{
    if let Some(Awaited::ForDelete { name: waited }) = desk.standing.awaited()
        && waited == name
    {
        desk.standing.ready(delete_answer(told));
    }
}
