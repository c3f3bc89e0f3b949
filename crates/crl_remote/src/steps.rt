//! What each event changes on a node's side of a region, by name.
ghost use Rattle.std.specs.Prelude.{◌≡◌, ◌+◌, ◌-◌, ◌<◌, ◌≤◌, ◌^◌, ◌++◌, Some, None, true, length};
ghost use Rattle.crl_pieces.specs.Pieces.{count};
ghost use Rattle.crl_protocol.specs.Remote.{grant_fits};
ghost use Rattle.crl_remote.specs.Copies.{ReadsBelow, IsReading, IsWriting};
ghost use Rattle.crl_remote.specs.Posts.{mail_pieces};
ghost use Rattle.crl_remote.specs.RemotesState as remotes;
ghost use Rattle.crl_remote.specs.RemotesState.{owed_in, row_at, IsThere, HasRow};

use crate::remotes::Remotes;
use crl_model::bytes::Bytes;
use crl_model::message::Granted;
use crl_model::name::Name;
use crl_outbox::{Mailbox, Sheets};

impl Remotes {
    /// A section starts, with paper for the region's bytes. Answers whether it opened; else the node has asked
    /// for a copy.
    #[tactic(auto, using(crate::proofs::Rows::over_gone))]
    pub fn start(&mut self, name: Name, write: bool, sheets: Sheets, out: &mut Mailbox) -> bool
        requires there { IsThere name self.old }
        requires number { ReadsBelow (2 ^ 32 - 1) (row_at name self.old).here }
        requires sheets { sheets ≡ (row_at name self.old).size }
        requires room { owed_in self.old.rows + count (row_at name self.old).size ≤ out.old.room }
        ensures row { HasRow name (Some (remotes.start_step name write self.old).remote) self.old self.new }
        ensures posts { out.new.list ≡ out.old.list ++ mail_pieces self.old.me name (remotes.start_step name write self.old).posts }
        ensures opened { result ≡ (remotes.start_step name write self.old).opened }
        ensures places { length out.new.list + out.new.room ≡ length out.old.list + out.old.room }
        ensures owes { owed_in self.new.rows + length out.new.list ≤ owed_in self.old.rows + count (row_at name self.old).size + length out.old.list }
    {
        let _room = out.room();
        match self.take(name) {
            Some(mut row) => {
                let opened = row.start(self.me(), name, write, sheets, out);
                self.put(name, row);
                opened
            }
            None => false,
        }
    }

    /// A grant comes, with paper for the region's bytes: the section opens for which the node waits.
    #[tactic(auto, using(crate::proofs::Rows::over_gone))]
    pub fn take_grant(&mut self, name: Name, version: u64, granted: Granted, sheets: Sheets)
        requires there { IsThere name self.old }
        requires grant { grant_fits granted (row_at name self.old) ≡ true }
        requires sheets { sheets ≡ (row_at name self.old).size }
        requires fits { owed_in self.old.rows + count (row_at name self.old).size < 2 ^ 64 }
        ensures row { HasRow name (Some (remotes.row_after_grant name version granted self.old)) self.old self.new }
        ensures owes { owed_in self.new.rows ≤ owed_in self.old.rows + count (row_at name self.old).size }
    {
        if let Some(mut row) = self.take(name) {
            row.take_grant(version, granted, sheets);
            self.put(name, row);
        }
    }

    /// A recall comes, with paper for the region's bytes.
    #[tactic(auto, using(crate::proofs::Rows::over_gone))]
    pub fn take_recall(&mut self, name: Name, version: u64, sheets: Sheets, out: &mut Mailbox)
        requires there { IsThere name self.old }
        requires sheets { sheets ≡ (row_at name self.old).size }
        requires room { owed_in self.old.rows + count (row_at name self.old).size ≤ out.old.room }
        ensures row { HasRow name (Some (remotes.recall_step name version self.old).remote) self.old self.new }
        ensures posts { out.new.list ≡ out.old.list ++ mail_pieces self.old.me name (remotes.recall_step name version self.old).posts }
        ensures places { length out.new.list + out.new.room ≡ length out.old.list + out.old.room }
        ensures owes { owed_in self.new.rows + length out.new.list ≤ owed_in self.old.rows + count (row_at name self.old).size + length out.old.list }
    {
        let _room = out.room();
        if let Some(mut row) = self.take(name) {
            row.take_recall(self.me(), name, version, sheets, out);
            self.put(name, row);
        }
    }

    /// A yield comes, with paper for the region's bytes.
    #[tactic(auto, using(crate::proofs::Rows::over_gone))]
    pub fn take_yield(&mut self, name: Name, version: u64, sheets: Sheets, out: &mut Mailbox)
        requires there { IsThere name self.old }
        requires sheets { sheets ≡ (row_at name self.old).size }
        requires room { owed_in self.old.rows + count (row_at name self.old).size ≤ out.old.room }
        ensures row { HasRow name (Some (remotes.yield_step name version self.old).remote) self.old self.new }
        ensures posts { out.new.list ≡ out.old.list ++ mail_pieces self.old.me name (remotes.yield_step name version self.old).posts }
        ensures places { length out.new.list + out.new.room ≡ length out.old.list + out.old.room }
        ensures owes { owed_in self.new.rows + length out.new.list ≤ owed_in self.old.rows + count (row_at name self.old).size + length out.old.list }
    {
        let _room = out.room();
        if let Some(mut row) = self.take(name) {
            row.take_yield(self.me(), name, version, sheets, out);
            self.put(name, row);
        }
    }

    /// A read section ends.
    #[tactic(auto, using(crate::proofs::Rows::over_gone))]
    pub fn end_read(&mut self, name: Name, out: &mut Mailbox)
        requires there { IsThere name self.old }
        requires reading { IsReading (row_at name self.old).here }
        requires room { owed_in self.old.rows ≤ out.old.room }
        ensures row { HasRow name (Some (remotes.end_read_step name self.old).remote) self.old self.new }
        ensures posts { out.new.list ≡ out.old.list ++ mail_pieces self.old.me name (remotes.end_read_step name self.old).posts }
        ensures places { length out.new.list + out.new.room ≡ length out.old.list + out.old.room }
        ensures owes { owed_in self.new.rows + length out.new.list ≤ owed_in self.old.rows + length out.old.list }
    {
        let _room = out.room();
        if let Some(mut row) = self.take(name) {
            row.end_read(self.me(), name, out);
            self.put(name, row);
        }
    }

    /// A write section ends, with these bytes.
    #[tactic(auto, using(crate::proofs::Rows::over_gone))]
    pub fn end_write(&mut self, name: Name, bytes: Bytes, out: &mut Mailbox)
        requires there { IsThere name self.old }
        requires writing { IsWriting (row_at name self.old).here }
        requires sized { length bytes ≡ (row_at name self.old).size }
        requires room { owed_in self.old.rows ≤ out.old.room }
        ensures row { HasRow name (Some (remotes.end_write_step name bytes self.old).remote) self.old self.new }
        ensures posts { out.new.list ≡ out.old.list ++ mail_pieces self.old.me name (remotes.end_write_step name bytes self.old).posts }
        ensures places { length out.new.list + out.new.room ≡ length out.old.list + out.old.room }
        ensures owes { owed_in self.new.rows + length out.new.list ≤ owed_in self.old.rows + length out.old.list }
    {
        let _room = out.room();
        if let Some(mut row) = self.take(name) {
            row.end_write(self.me(), name, bytes, out);
            self.put(name, row);
        }
    }

    /// The copy, if one is here, is sent back, with paper for the region's bytes.
    #[tactic(auto, using(crate::proofs::Rows::over_gone))]
    pub fn flush(&mut self, name: Name, sheets: Sheets, out: &mut Mailbox)
        requires there { IsThere name self.old }
        requires sheets { sheets ≡ (row_at name self.old).size }
        requires room { owed_in self.old.rows + count (row_at name self.old).size ≤ out.old.room }
        ensures row { HasRow name (Some (remotes.flush_step name self.old).remote) self.old self.new }
        ensures posts { out.new.list ≡ out.old.list ++ mail_pieces self.old.me name (remotes.flush_step name self.old).posts }
        ensures places { length out.new.list + out.new.room ≡ length out.old.list + out.old.room }
        ensures owes { owed_in self.new.rows + length out.new.list ≤ owed_in self.old.rows + count (row_at name self.old).size + length out.old.list }
    {
        let _room = out.room();
        if let Some(mut row) = self.take(name) {
            row.flush(self.me(), name, sheets, out);
            self.put(name, row);
        }
    }

    /// The name is forgotten: the copy, if one is here, is sent back, and there is no row any more. Its place
    /// stays.
    pub fn forget(&mut self, name: Name, sheets: Sheets, out: &mut Mailbox)
        requires there { IsThere name self.old }
        requires sheets { sheets ≡ (row_at name self.old).size }
        requires room { owed_in self.old.rows + count (row_at name self.old).size ≤ out.old.room }
        ensures row { HasRow name None self.old self.new }
        ensures posts { out.new.list ≡ out.old.list ++ mail_pieces self.old.me name (remotes.flush_step name self.old).posts }
        ensures places { length out.new.list + out.new.room ≡ length out.old.list + out.old.room }
        ensures owes { owed_in self.new.rows + length out.new.list ≤ owed_in self.old.rows + count (row_at name self.old).size + length out.old.list }
    {
        if let Some(mut row) = self.take(name) {
            row.flush(self.me(), name, sheets, out);
        }
    }
}
