//! Asks are served, the oldest first.
ghost use Rattle.std.specs.Prelude.{◌≡◌, ◌+◌, ◌<◌, ◌≤◌, ◌^◌, ◌++◌, length, if◌then◌else◌};
ghost use Rattle.crl_outbox.specs.declared.cover.CoverKind.TheVariants.{ExclusiveGrant, SharedGrant};
ghost use Rattle.crl_pieces.specs.Pieces.{count};
ghost use Rattle.crl_protocol.specs.Home as table;
ghost use Rattle.crl_protocol.specs.Mail.{Grant};
ghost use Rattle.crl_protocol.specs.Parcels.{pieces_of};
ghost use Rattle.crl_home.specs.Debts.{owed, owed_to_copies};
ghost use Rattle.crl_home.specs.Posts.{letter_message, letter_pieces};
ghost use Rattle.crl_home.specs.Starts.{IsHead, head_of, behind_head};

use crate::copies::{call_copies, put_copy};
use crate::home::Home;
use crate::rule::{is_clear, lets_open, section_for};
use crl_model::NodeNo;
use crl_model::directory::{Asked, Listing, Mark};
use crl_model::message::{Granted, Kind, Message};
use crl_model::name::Name;
use crl_outbox::{Cover, CoverKind, Mailbox, Sheets};

/// The grant of this version to an ask, with these bytes, is posted, if the node has this copy.
fn post_grant(
    me: NodeNo,
    name: Name,
    version: u64,
    own: Option<Listing>,
    ask: Asked,
    bytes: &[u8],
    sheets: Sheets,
    out: &mut Mailbox,
)
    requires sheets { sheets ≡ length bytes.now }
    requires room { count (length bytes.now) ≤ out.old.room }
    ensures posts { out.new.list ≡ out.old.list ++ pieces_of (letter_message me name (record { to = ask.node; mail = Grant version (table.grant_to own ask bytes.now) })) }
    ensures spent { out.old.room ≤ out.new.room + count (length bytes.now) }
    ensures places { length out.new.list + out.new.room ≡ length out.old.list + out.old.room }
{
    if ask.write && own.is_some() {
        out.post(Message {
            sender: me,
            addressee: ask.node,
            kind: Kind::Grant {
                name,
                version,
                granted: Granted::Upgrade,
            },
        });
        return;
    }
    let cover = Cover {
        sender: me,
        addressee: ask.node,
        kind: cover_kind(ask.write),
        name,
        version,
    };
    out.post_bytes(cover, bytes, sheets);
}

impl Home {
    /// The oldest ask that waits.
    fn head(&self) -> Option<Asked>
        ensures { result ≡ head_of self.now.queue }
    {
        self.queue.front().map(|waiting| waiting.asked)
    }

    /// Whether the ask can be served.
    pub(crate) fn can_serve(&self, ask: Asked) -> bool
        ensures { result ≡ table.is_servable self.now ask }
    {
        lets_open(self.mine, ask.write) && is_clear(&self.listed, ask)
    }

    /// Calls the copies that stand in the way of the ask.
    fn call(&mut self, me: NodeNo, name: Name, ask: Asked, out: &mut Mailbox)
        requires room { owed_to_copies self.old.listed ≤ out.old.room }
        ensures home { self.new ≡ record self.old { listed = table.with_marks 0 self.old.listed ask } }
        ensures posts { out.new.list ≡ out.old.list ++ letter_pieces me name (table.recalls_and_yields 0 self.old.listed ask) }
        ensures places { length out.new.list + out.new.room ≡ length out.old.list + out.old.room }
        ensures owes { owed self.new + length out.new.list ≤ owed self.old + length out.old.list }
        ensures nodes { length self.new.listed ≡ length self.old.listed }
    {
        call_copies(me, name, &mut self.listed, ask, out);
    }

    /// The home's own ask, which stands at the head, is served: its section opens.
    #[tactic(auto, using(crate::proofs::Owing::head_owes))]
    fn open_head(&mut self, ask: Asked)
        requires head { IsHead ask self.old.queue }
        ensures home { self.new ≡ record (table.open_own self.old ask) { queue = behind_head self.old.queue } }
        ensures owes { owed self.new ≤ owed self.old }
    {
        let _ = self.queue.pop_front();
        self.mine = section_for(ask.write);
    }

    /// Another node's ask, which stands at the head, is served: it is granted a copy.
    #[tactic(auto, using(crate::proofs::Owing::head_owes, crate::proofs::Owing::put_owes))]
    fn grant_head(&mut self, me: NodeNo, name: Name, ask: Asked, out: &mut Mailbox)
        requires head { IsHead ask self.old.queue }
        requires room { owed self.old ≤ out.old.room }
        requires versions { self.old.last + 1 < 2 ^ 64 }
        ensures home { self.new ≡ record (table.grant_next self.old ask) { queue = behind_head self.old.queue } }
        ensures posts { out.new.list ≡ out.old.list ++ pieces_of (letter_message me name (table.grant_for self.old ask)) }
        ensures places { length out.new.list + out.new.room ≡ length out.old.list + out.old.room }
        ensures owes { owed self.new + length out.new.list ≤ owed self.old + length out.old.list }
        ensures nodes { length self.new.listed ≡ length self.old.listed }
    {
        if let Some(waiting) = self.queue.pop_front() {
            self.last += 1;
            let copy = Listing {
                exclusive: ask.write,
                version: self.last,
                mark: Mark::Plain,
            };
            let own = put_copy(&mut self.listed, ask.node, Some(copy));
            let bytes = self.bytes.as_slice();
            post_grant(me, name, self.last, own, ask, bytes, waiting.sheets, out);
        }
    }

    /// Serves the asks, the oldest first, up to the first that has to wait. Answers whether the home's own
    /// section opened.
    pub(crate) fn serve(&mut self, me: NodeNo, name: Name, out: &mut Mailbox) -> bool
        requires room { owed self.old ≤ out.old.room }
        requires versions { self.old.last + length self.old.queue < 2 ^ 64 }
        ensures home { self.new ≡ (table.serve me self.old self.old.queue).home }
        ensures posts { out.new.list ≡ out.old.list ++ letter_pieces me name (table.serve me self.old self.old.queue).posts }
        ensures opened { result ≡ (table.serve me self.old self.old.queue).opened }
        ensures places { length out.new.list + out.new.room ≡ length out.old.list + out.old.room }
        ensures owes { owed self.new + length out.new.list ≤ owed self.old + length out.old.list }
        ensures nodes { length self.new.listed ≡ length self.old.listed }
    {
        let mut opened = false;
        while let Some(ask) = self.head() {
            if !self.can_serve(ask) {
                self.call(me, name, ask, out);
                return opened;
            }
            if ask.node == me {
                self.open_head(ask);
                opened = true;
            } else {
                self.grant_head(me, name, ask, out);
            }
        }
        opened
    }
}

/// The kind of a grant with bytes.
fn cover_kind(write: bool) -> CoverKind
    ensures { result ≡ (if write then ExclusiveGrant else SharedGrant) }
{
    if write {
        CoverKind::ExclusiveGrant
    } else {
        CoverKind::SharedGrant
    }
}
