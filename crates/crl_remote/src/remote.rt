//! A node's side of one region of another home: its copy, and what opens and closes over it.
ghost use Rattle.std.specs.Prelude.{◌≡◌, ◌+◌, ◌<◌, ◌≤◌, ◌++◌, IsSome, IfSome, Some, None, true, length, option_copied, if◌then◌else◌};
ghost use Rattle.crl_model.specs.declared.directory.Section.TheVariants.{Closed};
ghost use Rattle.crl_pieces.specs.Pieces.{count};
ghost use Rattle.crl_protocol.specs.Home.{one_section_less};
ghost use Rattle.crl_protocol.specs.Mail.{Return};
ghost use Rattle.crl_protocol.specs.Parcels.{pieces_of};
ghost use Rattle.crl_protocol.specs.Remote as table;
ghost use Rattle.crl_remote.specs.Copies.{kind_of, bytes_of_copy, is_exclusive_copy, ArePapers, IsPaperBack, IsReading, IsWriting};
ghost use Rattle.crl_remote.specs.Debts as debts;
ghost use Rattle.crl_remote.specs.Posts.{mail_message, mail_pieces};

use crate::copy::Copy;
use crate::rule::{is_newer, one_section_less};
use crl_model::NodeNo;
use crl_model::bytes::Bytes;
use crl_model::directory::{Due, Section};
use crl_model::message::{Granted, Kind, Message};
use crl_model::name::Name;
use crl_outbox::{Cover, CoverKind, Mailbox, Sheets};
use crl_pieces::parts::count;
use std::marker::Model;

/// A node's side of one region. A contract sees it as the `Remote` of the protocol.
#[derive(Drop)]
pub(crate) struct Remote {
    pub(crate) size: u32,
    pub(crate) copy: Option<Copy>,
    pub(crate) given: bool,
    pub(crate) here: Section,
    pub(crate) leaving: bool,
    pub(crate) lowering: bool,
    pub(crate) asking: Option<bool>,
    pub(crate) due: Option<Due>,
    pub(crate) sheets: Option<Sheets>,
}

impl Model for Remote {
    ghost use Rattle.crl_protocol.specs.Remote as table;
    ghost use Rattle.crl_remote.specs.Copies.{copy_of, HasPaper, IsSized};

    ghost Value = { table.Remote };

    ghost view = { λ r. record { size = r.size; copy = copy_of r.copy; given = r.given; here = r.here; leaving = r.leaving; lowering = r.lowering; asking = r.asking; due = r.due } };

    ghost invariant = { λ r. IsSized r.size r.copy × HasPaper r.size r.here r.sheets };
}

/// A copy of this version goes back, with its bytes or without.
#[tactic(auto, using(crate::proofs::Mails::one_mail))]
fn post_return(
    me: NodeNo,
    name: Name,
    version: u64,
    given: bool,
    bytes: &[u8],
    sheets: Sheets,
    out: &mut Mailbox,
)
    requires sheets { sheets ≡ length bytes.now }
    requires room { count (length bytes.now) ≤ out.old.room }
    ensures posts { out.new.list ≡ out.old.list ++ pieces_of (mail_message me name (Return version (if given then Some bytes.now else None))) }
    ensures spent { out.old.room ≤ out.new.room + count (length bytes.now) }
    ensures places { length out.new.list + out.new.room ≡ length out.old.list + out.old.room }
{
    if !given {
        out.post(Message {
            sender: me,
            addressee: name.home,
            kind: Kind::Return {
                name,
                version,
                bytes: None,
            },
        });
        return;
    }
    let cover = Cover {
        sender: me,
        addressee: name.home,
        kind: CoverKind::Return,
        name,
        version,
    };
    out.post_bytes(cover, bytes, sheets);
}

impl Remote {
    /// Mapped anew: no copy is here.
    pub(crate) fn new(size: u32) -> Remote
        ensures { result ≡ table.new_remote size }
    {
        Remote {
            size,
            copy: None,
            given: false,
            here: Section::Closed,
            leaving: false,
            lowering: false,
            asking: None,
            due: None,
            sheets: None,
        }
    }

    /// The number of the region's bytes.
    pub(crate) fn size(&self) -> u32
        ensures { result ≡ self.now.size }
    {
        self.size
    }

    /// The bytes of the copy that is here, if one is.
    pub(crate) fn bytes(&self) -> Option<&[u8]>
        ensures bytes { bytes_of_copy self.now.copy ≡ option_copied result }
        ensures sized { IfSome result (λ bytes. length bytes.now ≡ self.now.size) }
    {
        match &self.copy {
            Some(copy) => Some(copy.bytes.as_slice()),
            None => None,
        }
    }

    /// Whether the copy that is here is exclusive, and its version.
    pub(crate) fn copy_here(&self) -> Option<(bool, u64)>
        ensures { result ≡ kind_of self.now.copy }
    {
        match &self.copy {
            Some(copy) => Some((copy.exclusive, copy.version)),
            None => None,
        }
    }

    /// Whether the copy that is here is exclusive.
    pub(crate) fn is_exclusive(&self) -> bool
        ensures { result ≡ is_exclusive_copy self.now.copy }
    {
        match &self.copy {
            Some(copy) => copy.exclusive,
            None => false,
        }
    }

    /// How many pieces may have to be posted at the end of the last section that is open here.
    pub(crate) fn owed(&self) -> usize
        ensures value { result ≡ debts.owed self.now }
        ensures bound { result ≤ count self.now.size }
    {
        if matches!(self.here, Section::Closed) {
            return 0;
        }
        count(self.size) as usize
    }

    /// The copy goes back, with its bytes if the home may lack them, written on the sheets.
    #[tactic(auto, using(crate::proofs::Mails::one_mail))]
    pub(crate) fn give_back(&mut self, me: NodeNo, name: Name, sheets: Sheets, out: &mut Mailbox)
        requires copy { IsSome self.old.copy }
        requires sheets { sheets ≡ self.old.size }
        requires room { count self.old.size ≤ out.old.room }
        ensures remote { self.new ≡ table.without_copy self.old }
        ensures posts { out.new.list ≡ out.old.list ++ mail_pieces me name (table.flushes_over self.old.copy self.old).posts }
        ensures spent { out.old.room ≤ out.new.room + count self.old.size }
        ensures places { length out.new.list + out.new.room ≡ length out.old.list + out.old.room }
    {
        if let Some(copy) = self.copy.take() {
            let given = copy.exclusive || self.given;
            self.given = false;
            self.leaving = false;
            self.lowering = false;
            post_return(
                me,
                name,
                copy.version,
                given,
                copy.bytes.as_slice(),
                sheets,
                out,
            );
        }
    }

    /// The copy becomes a shared one, and its bytes go to the home, written on the sheets.
    #[tactic(auto, using(crate::proofs::Mails::one_mail))]
    pub(crate) fn lower(&mut self, me: NodeNo, name: Name, sheets: Sheets, out: &mut Mailbox)
        requires copy { IsSome self.old.copy }
        requires sheets { sheets ≡ self.old.size }
        requires room { count self.old.size ≤ out.old.room }
        ensures remote { self.new ≡ (table.lowers_over self.old.copy self.old).remote }
        ensures posts { out.new.list ≡ out.old.list ++ mail_pieces me name (table.lowers_over self.old.copy self.old).posts }
        ensures spent { out.old.room ≤ out.new.room + count self.old.size }
        ensures places { length out.new.list + out.new.room ≡ length out.old.list + out.old.room }
    {
        if let Some(copy) = &mut self.copy {
            copy.exclusive = false;
            self.given = true;
            self.lowering = false;
            let cover = Cover {
                sender: me,
                addressee: name.home,
                kind: CoverKind::Release,
                name,
                version: copy.version,
            };
            out.post_bytes(cover, copy.bytes.as_slice(), sheets);
        }
    }

    /// No mark is left of a copy that isn't here.
    pub(crate) fn clear_marks(&mut self)
        requires { self.old.copy ≡ None }
        ensures { self.new ≡ table.without_copy self.old }
    {
        self.given = false;
        self.leaving = false;
        self.lowering = false;
    }

    /// One read section is over. Answers the paper, if it was the last.
    pub(crate) fn close_read(&mut self) -> Option<Sheets>
        requires { IsReading self.old.here }
        ensures remote { self.new ≡ record self.old { here = one_section_less self.old.here } }
        ensures paper { IsPaperBack self.old.size self.new.here result }
    {
        self.here = one_section_less(self.here);
        if matches!(self.here, Section::Closed) {
            return self.sheets.take();
        }
        None
    }

    /// The write section is over, and these are the copy's bytes. Answers the paper.
    pub(crate) fn close_write(&mut self, bytes: Bytes) -> Option<Sheets>
        requires writing { IsWriting self.old.here }
        requires sized { length bytes ≡ self.old.size }
        ensures remote { self.new ≡ record self.old { here = Closed; copy = table.with_written bytes self.old.copy } }
        ensures paper { ArePapers self.old.size result }
    {
        self.here = Section::Closed;
        if let Some(copy) = &mut self.copy {
            copy.bytes = bytes;
        }
        self.sheets.take()
    }

    /// A section opens over the copy that is here, with paper for its end.
    pub(crate) fn open(&mut self, section: Section, sheets: Sheets)
        requires { sheets ≡ self.old.size }
        ensures { self.new ≡ record self.old { here = section } }
    {
        self.here = section;
        self.sheets = Some(sheets);
    }

    /// A recall or a yield is kept until a grant comes, if the node waits for one.
    pub(crate) fn note_due(&mut self, version: u64, yields: bool)
        ensures { self.new ≡ table.notes_due version yields self.old.asking self.old }
    {
        if self.asking.is_some() && is_newer(version, self.due) {
            self.due = Some(Due { version, yields });
        }
    }

    /// The copy goes back at the end of its last section.
    pub(crate) fn mark_leaving(&mut self)
        ensures { self.new ≡ record self.old { leaving = true } }
    {
        self.leaving = true;
    }

    /// The copy becomes a shared one at the end of its section.
    pub(crate) fn mark_lowering(&mut self)
        ensures { self.new ≡ record self.old { lowering = true } }
    {
        self.lowering = true;
    }

    /// The copy is the one that is granted.
    pub(crate) fn put_copy(&mut self, version: u64, granted: Granted)
        requires fits { table.grant_fits granted self.old ≡ true }
        ensures { self.new ≡ record self.old { copy = table.copy_after_grant version granted self.old.copy } }
    {
        match granted {
            Granted::Shared(bytes) => {
                self.copy = Some(Copy {
                    exclusive: false,
                    version,
                    bytes,
                });
            }
            Granted::Exclusive(bytes) => {
                self.copy = Some(Copy {
                    exclusive: true,
                    version,
                    bytes,
                });
            }
            Granted::Upgrade => {
                if let Some(copy) = &mut self.copy {
                    copy.exclusive = true;
                    copy.version = version;
                }
            }
        }
    }
}
