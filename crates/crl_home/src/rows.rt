//! What each event changes at the home of one region.
ghost use Rattle.std.specs.Prelude.{◌≡◌, ◌+◌, ◌-◌, ◌<◌, ◌≤◌, ◌^◌, ◌++◌, ◌∷◌, [], Some, None, length};
ghost use Rattle.crl_model.specs.declared.directory.Section.TheVariants.{Closed};
ghost use Rattle.crl_protocol.specs.Home as table;
ghost use Rattle.crl_protocol.specs.Places.{at, put};
ghost use Rattle.crl_home.specs.Debts.{owed, ask_debt};
ghost use Rattle.crl_home.specs.Posts.{letter_pieces};
ghost use Rattle.crl_home.specs.Starts.{HaveSize, ReadsBelow, OpensNow};

use crate::copies::{copy_at, put_copy};
use crate::home::Home;
use crate::rule::{one_section_less, one_section_more, own_ask, section_for};
use crate::waiting::Waiting;
use crl_model::NodeNo;
use crl_model::bytes::Bytes;
use crl_model::directory::{Asked, Listing, Mark, Section};
use crl_model::name::Name;
use crl_outbox::{Mailbox, Sheets};

impl Home {
    /// The ask joins the queue.
    fn join(&mut self, asked: Asked, sheets: Sheets)
        requires node { asked.node < length self.old.listed }
        requires few { length self.old.queue < length self.old.listed }
        requires sheets { sheets ≡ self.old.size }
        ensures { self.new ≡ record self.old { queue = self.old.queue ++ asked ∷ [] } }
    {
        self.queue.push_back_reserved(Waiting { asked, sheets });
    }

    /// An ask comes, with paper for the region's bytes. Answers whether the home's own section opened.
    #[tactic(auto, using(crate::proofs::Turns::serve_queue, crate::proofs::Owing::joined_owes), unfolding(crl_protocol::specs::Home::home_takes_ask))]
    pub(crate) fn take_ask(
        &mut self,
        me: NodeNo,
        name: Name,
        asked: Asked,
        sheets: Sheets,
        out: &mut Mailbox,
    ) -> bool
        requires node { asked.node < length self.old.listed }
        requires few { length self.old.queue < length self.old.listed }
        requires sheets { sheets ≡ self.old.size }
        requires room { owed self.old + ask_debt self.old.size ≤ out.old.room }
        requires versions { self.old.last + length self.old.queue + 1 < 2 ^ 64 }
        ensures home { self.new ≡ (table.home_takes_ask me asked self.old).home }
        ensures posts { out.new.list ≡ out.old.list ++ letter_pieces me name (table.home_takes_ask me asked self.old).posts }
        ensures opened { result ≡ (table.home_takes_ask me asked self.old).opened }
        ensures places { length out.new.list + out.new.room ≡ length out.old.list + out.old.room }
        ensures owes { owed self.new + length out.new.list ≤ owed self.old + ask_debt self.old.size + length out.old.list }
        ensures nodes { length self.new.listed ≡ length self.old.listed }
    {
        self.join(asked, sheets);
        self.serve(me, name, out)
    }

    /// A copy comes back: it is listed no more, and its bytes, if it has them, are the region's.
    #[tactic(auto, using(crate::proofs::Owing::put_owes))]
    fn take_back(&mut self, from: NodeNo, bytes: Option<Bytes>)
        requires node { from < length self.old.listed }
        requires sized { HaveSize bytes self.old.size }
        ensures home { self.new ≡ record self.old { bytes = table.bytes_after bytes self.old.bytes; listed = put from None self.old.listed } }
        ensures owes { owed self.new ≤ owed self.old }
        ensures nodes { length self.new.listed ≡ length self.old.listed }
    {
        let _ = put_copy(&mut self.listed, from, None);
        if let Some(bytes) = bytes {
            self.bytes = bytes;
        }
    }

    /// The copy of a node comes back. Answers whether the home's own section opened.
    #[tactic(auto, using(crate::proofs::Turns::serve_queue), unfolding(crl_protocol::specs::Home::home_takes_return))]
    pub(crate) fn take_return(
        &mut self,
        me: NodeNo,
        name: Name,
        from: NodeNo,
        bytes: Option<Bytes>,
        out: &mut Mailbox,
    ) -> bool
        requires node { from < length self.old.listed }
        requires sized { HaveSize bytes self.old.size }
        requires room { owed self.old ≤ out.old.room }
        requires versions { self.old.last + length self.old.queue < 2 ^ 64 }
        ensures home { self.new ≡ (table.home_takes_return me from bytes self.old).home }
        ensures posts { out.new.list ≡ out.old.list ++ letter_pieces me name (table.home_takes_return me from bytes self.old).posts }
        ensures opened { result ≡ (table.home_takes_return me from bytes self.old).opened }
        ensures places { length out.new.list + out.new.room ≡ length out.old.list + out.old.room }
        ensures owes { owed self.new + length out.new.list ≤ owed self.old + length out.old.list }
        ensures nodes { length self.new.listed ≡ length self.old.listed }
    {
        self.take_back(from, bytes);
        self.serve(me, name, out)
    }

    /// A copy becomes a shared one, and its bytes are the region's.
    #[tactic(auto, using(crate::proofs::Owing::put_owes))]
    fn lower(&mut self, from: NodeNo, version: u64, bytes: Bytes)
        requires node { from < length self.old.listed }
        requires sized { length bytes ≡ self.old.size }
        ensures home { self.new ≡ record self.old { bytes = bytes; listed = put from (Some (table.shared_listing version)) self.old.listed } }
        ensures owes { owed self.new ≤ owed self.old + 2 }
        ensures nodes { length self.new.listed ≡ length self.old.listed }
    {
        let copy = Listing {
            exclusive: false,
            version,
            mark: Mark::Plain,
        };
        let _ = put_copy(&mut self.listed, from, Some(copy));
        self.bytes = bytes;
    }

    /// Whether the node's copy is listed as an exclusive one of this version.
    fn is_to_lower(&self, from: NodeNo, version: u64) -> bool
        requires node { from < length self.now.listed }
        ensures { result ≡ table.is_to_lower version (at from self.now.listed) }
    {
        match copy_at(&self.listed, from) {
            Some(copy) => copy.exclusive && copy.version == version,
            None => false,
        }
    }

    /// The copy of a node became a shared one. Answers whether the home's own section opened.
    #[tactic(auto, using(crate::proofs::Turns::serve_queue), unfolding(crl_protocol::specs::Home::home_takes_release))]
    pub(crate) fn take_release(
        &mut self,
        me: NodeNo,
        name: Name,
        from: NodeNo,
        version: u64,
        bytes: Bytes,
        out: &mut Mailbox,
    ) -> bool
        requires node { from < length self.old.listed }
        requires sized { length bytes ≡ self.old.size }
        requires room { owed self.old + 2 ≤ out.old.room }
        requires versions { self.old.last + length self.old.queue < 2 ^ 64 }
        ensures home { self.new ≡ (table.home_takes_release me from version bytes self.old).home }
        ensures posts { out.new.list ≡ out.old.list ++ letter_pieces me name (table.home_takes_release me from version bytes self.old).posts }
        ensures opened { result ≡ (table.home_takes_release me from version bytes self.old).opened }
        ensures places { length out.new.list + out.new.room ≡ length out.old.list + out.old.room }
        ensures owes { owed self.new + length out.new.list ≤ owed self.old + 2 + length out.old.list }
        ensures nodes { length self.new.listed ≡ length self.old.listed }
    {
        if !self.is_to_lower(from, version) {
            return false;
        }
        self.lower(from, version, bytes);
        self.serve(me, name, out)
    }

    /// One read section of the home's own has ended.
    fn close_read(&mut self)
        ensures { self.new ≡ record self.old { mine = table.one_section_less self.old.mine } }
    {
        self.mine = one_section_less(self.mine);
    }

    /// A read section of the home's own ends.
    #[tactic(auto, using(crate::proofs::Turns::serve_queue), unfolding(crl_protocol::specs::Home::home_ends_read))]
    pub(crate) fn end_read(&mut self, me: NodeNo, name: Name, out: &mut Mailbox)
        requires room { owed self.old ≤ out.old.room }
        requires versions { self.old.last + length self.old.queue < 2 ^ 64 }
        ensures home { self.new ≡ (table.home_ends_read me self.old).home }
        ensures posts { out.new.list ≡ out.old.list ++ letter_pieces me name (table.home_ends_read me self.old).posts }
        ensures places { length out.new.list + out.new.room ≡ length out.old.list + out.old.room }
        ensures owes { owed self.new + length out.new.list ≤ owed self.old + length out.old.list }
        ensures nodes { length self.new.listed ≡ length self.old.listed }
    {
        self.close_read();
        let _ = self.serve(me, name, out);
    }

    /// The home's own write section has ended, with these bytes.
    fn close_write(&mut self, bytes: Bytes)
        requires sized { length bytes ≡ self.old.size }
        ensures { self.new ≡ record self.old { bytes = bytes; mine = Closed } }
    {
        self.bytes = bytes;
        self.mine = Section::Closed;
    }

    /// The home's write section ends, with these bytes.
    #[tactic(auto, using(crate::proofs::Turns::serve_queue), unfolding(crl_protocol::specs::Home::home_ends_write))]
    pub(crate) fn end_write(&mut self, me: NodeNo, name: Name, bytes: Bytes, out: &mut Mailbox)
        requires sized { length bytes ≡ self.old.size }
        requires room { owed self.old ≤ out.old.room }
        requires versions { self.old.last + length self.old.queue < 2 ^ 64 }
        ensures home { self.new ≡ (table.home_ends_write me bytes self.old).home }
        ensures posts { out.new.list ≡ out.old.list ++ letter_pieces me name (table.home_ends_write me bytes self.old).posts }
        ensures places { length out.new.list + out.new.room ≡ length out.old.list + out.old.room }
        ensures owes { owed self.new + length out.new.list ≤ owed self.old + length out.old.list }
        ensures nodes { length self.new.listed ≡ length self.old.listed }
    {
        self.close_write(bytes);
        let _ = self.serve(me, name, out);
    }

    /// The home's own section opens at once, if it may. Answers whether it opened.
    fn open_now(&mut self, me: NodeNo, write: bool) -> bool
        requires count { ReadsBelow (2 ^ 32 - 1) self.old.mine }
        ensures { OpensNow me write self.old self.new result }
    {
        if !write && matches!(self.mine, Section::Reading(_)) {
            self.mine = one_section_more(self.mine);
            return true;
        }
        let ask = own_ask(me, write);
        if self.queue.is_empty() && self.can_serve(ask) {
            self.mine = section_for(write);
            return true;
        }
        false
    }

    /// A section of the home's own starts, with paper for the region's bytes. Answers whether it opened.
    #[tactic(auto, using(crate::proofs::Turns::serve_queue, crate::proofs::Owing::joined_owes), unfolding(crl_protocol::specs::Home::home_starts))]
    pub(crate) fn start(
        &mut self,
        me: NodeNo,
        name: Name,
        write: bool,
        sheets: Sheets,
        out: &mut Mailbox,
    ) -> bool
        requires node { me < length self.old.listed }
        requires few { length self.old.queue < length self.old.listed }
        requires sheets { sheets ≡ self.old.size }
        requires count { ReadsBelow (2 ^ 32 - 1) self.old.mine }
        requires room { owed self.old + ask_debt self.old.size ≤ out.old.room }
        requires versions { self.old.last + length self.old.queue + 1 < 2 ^ 64 }
        ensures home { self.new ≡ (table.home_starts me write self.old).home }
        ensures posts { out.new.list ≡ out.old.list ++ letter_pieces me name (table.home_starts me write self.old).posts }
        ensures opened { result ≡ (table.home_starts me write self.old).opened }
        ensures places { length out.new.list + out.new.room ≡ length out.old.list + out.old.room }
        ensures owes { owed self.new + length out.new.list ≤ owed self.old + ask_debt self.old.size + length out.old.list }
        ensures nodes { length self.new.listed ≡ length self.old.listed }
    {
        if self.open_now(me, write) {
            return true;
        }
        self.join(own_ask(me, write), sheets);
        self.serve(me, name, out)
    }
}
