//! The ends of sections, and a flush.
ghost use Rattle.std.specs.Prelude.{◌≡◌, ◌+◌, ◌<◌, ◌≤◌, ◌++◌, length};
ghost use Rattle.crl_pieces.specs.Pieces.{count};
ghost use Rattle.crl_protocol.specs.Remote as table;
ghost use Rattle.crl_remote.specs.Copies.{IsReading, IsWriting};
ghost use Rattle.crl_remote.specs.Debts.{owed};
ghost use Rattle.crl_remote.specs.Posts.{mail_pieces};

use crate::remote::Remote;
use crl_model::NodeNo;
use crl_model::bytes::Bytes;
use crl_model::directory::Section;
use crl_model::name::Name;
use crl_outbox::{Mailbox, Sheets};

impl Remote {
    /// The last section has ended, and the copy goes back, which was recalled meanwhile.
    fn leave(&mut self, me: NodeNo, name: Name, sheets: Sheets, out: &mut Mailbox)
        requires sheets { sheets ≡ self.old.size }
        requires room { count self.old.size ≤ out.old.room }
        ensures remote { self.new ≡ (table.leaves_over self.old.copy self.old).remote }
        ensures posts { out.new.list ≡ out.old.list ++ mail_pieces me name (table.leaves_over self.old.copy self.old).posts }
        ensures spent { out.old.room ≤ out.new.room + count self.old.size }
        ensures places { length out.new.list + out.new.room ≡ length out.old.list + out.old.room }
    {
        if self.copy.is_some() {
            self.give_back(me, name, sheets, out);
        } else {
            self.clear_marks();
        }
    }

    /// A read section ends.
    #[tactic(auto, unfolding(crl_protocol::specs::Remote::remote_ends_read))]
    pub(crate) fn end_read(&mut self, me: NodeNo, name: Name, out: &mut Mailbox)
        requires reading { IsReading self.old.here }
        requires room { owed self.old ≤ out.old.room }
        ensures remote { self.new ≡ (table.remote_ends_read self.old).remote }
        ensures posts { out.new.list ≡ out.old.list ++ mail_pieces me name (table.remote_ends_read self.old).posts }
        ensures places { length out.new.list + out.new.room ≡ length out.old.list + out.old.room }
        ensures owes { owed self.new + length out.new.list ≤ owed self.old + length out.old.list }
    {
        let sheets = self.close_read();
        if matches!(self.here, Section::Closed) && self.leaving {
            self.leave(me, name, sheets.unwrap(), out);
        }
    }

    /// A write section ends, with these bytes.
    #[tactic(auto, unfolding(crl_protocol::specs::Remote::remote_ends_write))]
    pub(crate) fn end_write(&mut self, me: NodeNo, name: Name, bytes: Bytes, out: &mut Mailbox)
        requires writing { IsWriting self.old.here }
        requires sized { length bytes ≡ self.old.size }
        requires room { owed self.old ≤ out.old.room }
        ensures remote { self.new ≡ (table.remote_ends_write bytes self.old).remote }
        ensures posts { out.new.list ≡ out.old.list ++ mail_pieces me name (table.remote_ends_write bytes self.old).posts }
        ensures places { length out.new.list + out.new.room ≡ length out.old.list + out.old.room }
        ensures owes { owed self.new + length out.new.list ≤ owed self.old + length out.old.list }
    {
        let sheets = self.close_write(bytes);
        if self.leaving {
            self.leave(me, name, sheets.unwrap(), out);
            return;
        }
        if self.lowering && self.copy.is_some() {
            self.lower(me, name, sheets.unwrap(), out);
        }
    }

    /// The region is sent back.
    #[tactic(auto, unfolding(crl_protocol::specs::Remote::remote_flushes))]
    pub(crate) fn flush(&mut self, me: NodeNo, name: Name, sheets: Sheets, out: &mut Mailbox)
        requires sheets { sheets ≡ self.old.size }
        requires room { count self.old.size ≤ out.old.room }
        ensures remote { self.new ≡ (table.remote_flushes self.old).remote }
        ensures posts { out.new.list ≡ out.old.list ++ mail_pieces me name (table.remote_flushes self.old).posts }
        ensures places { length out.new.list + out.new.room ≡ length out.old.list + out.old.room }
        ensures owes { owed self.new + length out.new.list ≤ owed self.old + count self.old.size + length out.old.list }
    {
        if self.copy.is_some() {
            self.give_back(me, name, sheets, out);
        }
    }
}
