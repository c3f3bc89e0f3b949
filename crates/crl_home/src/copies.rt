//! The list of copies: the calls for them, and a copy put in and read.
ghost use Rattle.std.specs.Prelude.{◌≡◌, ◌+◌, ◌<◌, ◌≤◌, ◌++◌, ◌∷◌, [], Some, length};
ghost use Rattle.crl_protocol.specs.Home as home;
ghost use Rattle.crl_protocol.specs.Parcels.{load_of};
ghost use Rattle.crl_protocol.specs.Places.{at, put};
ghost use Rattle.crl_home.specs.Debts.{calls_left, owed_to_copy, owed_to_copies};
ghost use Rattle.crl_home.specs.Posts.{letter_message, letter_pieces, mark_at, call_at};

use crate::rule::{is_to_mark, mark_for};
use crl_model::NodeNo;
use crl_model::directory::{Asked, Listing, Mark};
use crl_model::message::{Kind, Message};
use crl_model::name::Name;
use crl_outbox::Mailbox;

/// The call for the copy of this version that this node has.
fn recall_or_yield(me: NodeNo, name: Name, node: NodeNo, ask: Asked, version: u64) -> Message
    ensures message { result ≡ letter_message me name (home.recall_or_yield ask version node) }
    ensures bare { load_of result.kind ≡ [] }
{
    let kind = if ask.write {
        Kind::Recall { name, version }
    } else {
        Kind::Yield { name, version }
    };
    Message {
        sender: me,
        addressee: node,
        kind,
    }
}

/// Calls the copy of this node, if it stands in the way of the ask and wasn't called yet. Answers the copy
/// with its mark.
#[tactic(auto, using(crate::proofs::Calling::one_letter))]
fn call_copy(
    me: NodeNo,
    name: Name,
    node: NodeNo,
    copy: Listing,
    ask: Asked,
    out: &mut Mailbox,
) -> Listing
    requires room { calls_left copy.mark ≤ out.old.room }
    ensures copy { Some result ≡ mark_at node (Some copy) ask }
    ensures posts { out.new.list ≡ out.old.list ++ letter_pieces me name (call_at node (Some copy) ask) }
    ensures places { length out.new.list + out.new.room ≡ length out.old.list + out.old.room }
    ensures owes { calls_left result.mark + length out.new.list ≤ calls_left copy.mark + length out.old.list }
{
    if !is_to_mark(node, copy, ask) {
        return copy;
    }
    out.post(recall_or_yield(me, name, node, ask, copy.version));
    Listing {
        exclusive: copy.exclusive,
        version: copy.version,
        mark: mark_for(ask),
    }
}

/// The same for the copy of this node, if it has one.
fn call_place(
    me: NodeNo,
    name: Name,
    node: NodeNo,
    copy: Option<Listing>,
    ask: Asked,
    out: &mut Mailbox,
) -> Option<Listing>
    requires room { owed_to_copy copy ≤ out.old.room }
    ensures copy { result ≡ mark_at node copy ask }
    ensures posts { out.new.list ≡ out.old.list ++ letter_pieces me name (call_at node copy ask) }
    ensures places { length out.new.list + out.new.room ≡ length out.old.list + out.old.room }
    ensures owes { owed_to_copy result + length out.new.list ≤ owed_to_copy copy + length out.old.list }
{
    match copy {
        Some(copy) => Some(call_copy(me, name, node, copy, ask, out)),
        None => None,
    }
}

/// Calls the copies that stand in the way of the ask and weren't called yet.
#[tactic(auto, using(crate::proofs::Owing::owed_first))]
pub(crate) fn call_copies(
    me: NodeNo,
    name: Name,
    listed: &mut [Option<Listing>],
    ask: Asked,
    out: &mut Mailbox,
)
    requires few { length listed.old ≤ 64 }
    requires room { owed_to_copies listed.old ≤ out.old.room }
    ensures listed { listed.new ≡ home.with_marks 0 listed.old ask }
    ensures posts { out.new.list ≡ out.old.list ++ letter_pieces me name (home.recalls_and_yields 0 listed.old ask) }
    ensures places { length out.new.list + out.new.room ≡ length out.old.list + out.old.room }
    ensures owes { owed_to_copies listed.new + length out.new.list ≤ owed_to_copies listed.old + length out.old.list }
    ensures nodes { length listed.new ≡ length listed.old }
{
    for i in 0..listed.len() {
        let before = listed[i];
        listed[i] = call_place(me, name, i as NodeNo, before, ask, out);
    }
}

/// Puts the copy of the node into the list, or none. Answers what stood there.
#[tactic(auto, using(crate::proofs::Putting::put_is_set, crate::proofs::Putting::at_is_read))]
pub(crate) fn put_copy(
    listed: &mut Vec<Option<Listing>>,
    node: NodeNo,
    copy: Option<Listing>,
) -> Option<Listing>
    requires { node < length listed.old.items }
    ensures listed { listed.new.items ≡ put node copy listed.old.items }
    ensures before { result ≡ at node listed.old.items }
    ensures len { length listed.new.items ≡ length listed.old.items }
{
    let before = listed[node as usize];
    listed[node as usize] = copy;
    before
}

/// The copy of the node.
#[tactic(auto, using(crate::proofs::Putting::at_is_read))]
pub(crate) fn copy_at(listed: &[Option<Listing>], node: NodeNo) -> Option<Listing>
    requires { node < length listed.now }
    ensures { result ≡ at node listed.now }
{
    listed[node as usize]
}

/// How often a copy may still be called.
fn owed_to_copy(copy: Option<Listing>) -> usize
    ensures value { result ≡ owed_to_copy copy }
    ensures bound { result ≤ 2 }
{
    match copy {
        Some(copy) => match copy.mark {
            Mark::Plain => 2,
            Mark::Yielding => 1,
            Mark::Recalled => 0,
        },
        None => 0,
    }
}

/// How often the copies may still be called.
#[tactic(auto, using(crate::proofs::Owing::owed_first))]
pub(crate) fn owed_to_copies(listed: &[Option<Listing>]) -> usize
    requires few { length listed.now ≤ 64 }
    ensures value { result ≡ owed_to_copies listed.now }
    ensures bound { result ≤ 128 }
{
    let mut owed = 0;
    for copy in listed {
        owed += owed_to_copy(*copy);
    }
    owed
}
