//! The start of a section, and the messages of the home.
ghost use Rattle.std.specs.Prelude.{◌≡◌, ◌+◌, ◌-◌, ◌<◌, ◌≤◌, ◌^◌, ◌++◌, true, length};
ghost use Rattle.crl_pieces.specs.Pieces.{count};
ghost use Rattle.crl_protocol.specs.Remote as table;
ghost use Rattle.crl_remote.specs.Copies.{ReadsBelow};
ghost use Rattle.crl_remote.specs.Debts.{owed};
ghost use Rattle.crl_remote.specs.Posts.{mail_pieces};

use crate::remote::Remote;
use crate::rule::{is_due, one_section_more, section_asked};
use crl_model::NodeNo;
use crl_model::directory::Section;
use crl_model::message::{Granted, Kind, Message};
use crl_model::name::Name;
use crl_outbox::{Mailbox, Sheets};

impl Remote {
    /// The node asks for a copy.
    #[tactic(auto, using(crate::proofs::Mails::one_mail))]
    fn ask(&mut self, me: NodeNo, name: Name, write: bool, have: u64, out: &mut Mailbox)
        requires room { 0 < out.old.room }
        ensures remote { self.new ≡ (table.asks_home write have self.old).remote }
        ensures posts { out.new.list ≡ out.old.list ++ mail_pieces me name (table.asks_home write have self.old).posts }
        ensures spent { out.new.room + 1 ≡ out.old.room }
        ensures places { length out.new.list + out.new.room ≡ length out.old.list + out.old.room }
    {
        self.asking = Some(write);
        self.due = None;
        out.post(Message {
            sender: me,
            addressee: name.home,
            kind: Kind::Ask { name, write, have },
        });
    }

    /// A section starts, with paper for the region's bytes. Answers whether it opened; else the node has asked
    /// for a copy.
    #[tactic(auto, unfolding(crl_protocol::specs::Remote::remote_starts))]
    pub(crate) fn start(
        &mut self,
        me: NodeNo,
        name: Name,
        write: bool,
        sheets: Sheets,
        out: &mut Mailbox,
    ) -> bool
        requires number { ReadsBelow (2 ^ 32 - 1) self.old.here }
        requires sheets { sheets ≡ self.old.size }
        requires room { 0 < out.old.room }
        ensures remote { self.new ≡ (table.remote_starts write self.old).remote }
        ensures posts { out.new.list ≡ out.old.list ++ mail_pieces me name (table.remote_starts write self.old).posts }
        ensures opened { result ≡ (table.remote_starts write self.old).opened }
        ensures places { length out.new.list + out.new.room ≡ length out.old.list + out.old.room }
        ensures owes { owed self.new + length out.new.list ≤ owed self.old + count self.old.size + length out.old.list }
    {
        match self.copy_here() {
            None => {
                self.ask(me, name, write, 0, out);
                false
            }
            Some((exclusive, version)) => {
                if !write {
                    let section = one_section_more(self.here);
                    self.open(section, sheets);
                    return true;
                }
                if exclusive {
                    self.open(Section::Writing, sheets);
                    return true;
                }
                self.ask(me, name, true, version, out);
                false
            }
        }
    }

    /// A recall comes, with paper for the region's bytes.
    #[tactic(auto, unfolding(crl_protocol::specs::Remote::remote_takes_recall))]
    pub(crate) fn take_recall(
        &mut self,
        me: NodeNo,
        name: Name,
        version: u64,
        sheets: Sheets,
        out: &mut Mailbox,
    )
        requires sheets { sheets ≡ self.old.size }
        requires room { count self.old.size ≤ out.old.room }
        ensures remote { self.new ≡ (table.remote_takes_recall version self.old).remote }
        ensures posts { out.new.list ≡ out.old.list ++ mail_pieces me name (table.remote_takes_recall version self.old).posts }
        ensures places { length out.new.list + out.new.room ≡ length out.old.list + out.old.room }
        ensures owes { owed self.new + length out.new.list ≤ owed self.old + count self.old.size + length out.old.list }
    {
        match self.copy_here() {
            None => self.note_due(version, false),
            Some((_, old)) => {
                if version == old {
                    if matches!(self.here, Section::Closed) {
                        self.give_back(me, name, sheets, out);
                    } else {
                        self.mark_leaving();
                    }
                } else if old < version {
                    self.note_due(version, false);
                }
            }
        }
    }

    /// A yield comes, with paper for the region's bytes.
    #[tactic(auto, unfolding(crl_protocol::specs::Remote::remote_takes_yield))]
    pub(crate) fn take_yield(
        &mut self,
        me: NodeNo,
        name: Name,
        version: u64,
        sheets: Sheets,
        out: &mut Mailbox,
    )
        requires sheets { sheets ≡ self.old.size }
        requires room { count self.old.size ≤ out.old.room }
        ensures remote { self.new ≡ (table.remote_takes_yield version self.old).remote }
        ensures posts { out.new.list ≡ out.old.list ++ mail_pieces me name (table.remote_takes_yield version self.old).posts }
        ensures places { length out.new.list + out.new.room ≡ length out.old.list + out.old.room }
        ensures owes { owed self.new + length out.new.list ≤ owed self.old + count self.old.size + length out.old.list }
    {
        match self.copy_here() {
            None => self.note_due(version, true),
            Some((exclusive, old)) => {
                if version == old && exclusive {
                    if matches!(self.here, Section::Writing) {
                        self.mark_lowering();
                    } else {
                        self.lower(me, name, sheets, out);
                    }
                } else if old < version {
                    self.note_due(version, true);
                }
            }
        }
    }

    /// A grant comes, with paper for the region's bytes: the section opens for which the node waits.
    #[tactic(auto, unfolding(crl_protocol::specs::Remote::remote_takes_grant))]
    pub(crate) fn take_grant(&mut self, version: u64, granted: Granted, sheets: Sheets)
        requires fits { table.grant_fits granted self.old ≡ true }
        requires sheets { sheets ≡ self.old.size }
        ensures remote { self.new ≡ table.remote_takes_grant version granted self.old }
        ensures owes { owed self.new ≤ count self.old.size }
    {
        let leaving = is_due(version, false, self.due);
        let lowering = is_due(version, true, self.due);
        self.put_copy(version, granted);
        self.here = section_asked(self.asking);
        self.sheets = Some(sheets);
        self.given = false;
        self.leaving = leaving;
        self.lowering = lowering;
        self.asking = None;
        self.due = None;
    }
}
