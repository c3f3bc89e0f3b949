//! A node's side of the regions of other homes, by name.
ghost use Rattle.std.specs.Prelude.{◌≡◌, ◌+◌, ◌<◌, ◌≤◌, ◌^◌, IsOk, IsSome, IfSome, None, Some, OnOk, OnErr, true, length, option_copied};
ghost use Rattle.crl_model.specs.Names.{at_name};
ghost use Rattle.crl_table.specs.Tables.{table_of, has_place, HasPlace, weight_of};
ghost use Rattle.crl_protocol.specs.Remote as table;
ghost use Rattle.crl_remote.specs.Copies.{bytes_in_row, is_exclusive_row};
ghost use Rattle.crl_remote.specs.Debts as debts;
ghost use Rattle.crl_remote.specs.RemotesState.{owed_in, row_at, size_or_none, IsThere, HasRow};

use crate::remote::Remote;
use crl_model::name::Name;
use crl_model::{NodeNo, OutOfMemory};
use crl_table::Table;
use std::alloc::Global;
use std::marker::Model;

/// A node's side of the regions of other homes that are mapped or cached here. A contract sees it as
/// `RemotesState`: the rows of the protocol, by name.
#[derive(Drop)]
pub struct Remotes {
    me: NodeNo,
    rows: Table<Remote>,
    owed: usize,
}

impl Model for Remotes {
    ghost use Rattle.std.specs.Prelude.{◌≡◌};
    ghost use Rattle.crl_remote.specs.RemotesState.{RemotesState, owed_in};

    ghost Value = { RemotesState };

    ghost view = { λ r. record { me = r.me; rows = r.rows } };

    ghost invariant = { λ r. r.owed ≡ owed_in r.rows };
}

impl Remotes {
    /// No region, at this node.
    pub fn new(alloc: Global, me: NodeNo) -> Remotes
        ensures me { result.me ≡ me }
        ensures rows { table_of result.rows ≡ (λ name. None) }
        ensures owes { owed_in result.rows ≡ 0 }
    {
        Remotes {
            me,
            rows: Table::new(alloc),
            owed: 0,
        }
    }

    /// A place for the row of this name.
    ///
    /// # Errors
    ///
    /// `OutOfMemory`, which comes only if the name has no place. Nothing changes.
    pub fn ready_add(&mut self, name: Name) -> Result<(), OutOfMemory>
        ensures me { self.new.me ≡ self.old.me }
        ensures rows { table_of self.new.rows ≡ table_of self.old.rows }
        ensures owes { owed_in self.new.rows ≡ owed_in self.old.rows }
        ensures places { OnOk result (has_place self.new.rows ≡ at_name (has_place self.old.rows) name true) }
        ensures place { OnOk result (HasPlace name self.new.rows) }
        ensures succeeds { HasPlace name self.old.rows → IsOk result }
        ensures err { OnErr result (self.new ≡ self.old) }
    {
        self.rows.ready(&name)
    }

    /// The name, which has a place, is mapped here anew, with a region of so many bytes: no copy is here. What was
    /// kept of the name before is gone.
    #[tactic(auto, using(crate::proofs::Rows::over_gone))]
    pub fn add(&mut self, name: Name, size: u32)
        requires place { HasPlace name self.old.rows }
        ensures row { HasRow name (Some (table.new_remote size)) self.old self.new }
        ensures owes { owed_in self.new.rows ≤ owed_in self.old.rows }
    {
        let _owed = self.owed();
        self.clear(name);
        self.put(name, Remote::new(size));
    }

    /// The row of the name, if there is one, is taken out. Its place stays.
    fn clear(&mut self, name: Name)
        requires place { HasPlace name self.old.rows }
        ensures row { HasRow name None self.old self.new }
        ensures absent { table_of self.new.rows name ≡ None }
        ensures place { HasPlace name self.new.rows }
        ensures owes { owed_in self.new.rows ≤ owed_in self.old.rows }
    {
        let row = self.rows.take(&name);
        self.owed -= owed_by(&row);
    }

    /// The row of the name is taken out. Its place stays.
    pub(crate) fn take(&mut self, name: Name) -> Option<Remote>
        requires there { IsThere name self.old }
        ensures row { result ≡ Some (row_at name self.old) }
        ensures gone { HasRow name None self.old self.new }
        ensures absent { table_of self.new.rows name ≡ None }
        ensures place { HasPlace name self.new.rows }
        ensures owes { owed_in self.new.rows + debts.owed (row_at name self.old) ≡ owed_in self.old.rows }
    {
        let row = self.rows.take(&name);
        self.owed -= owed_by(&row);
        row
    }

    /// The row of the name, which has a place and no row, is this one.
    pub(crate) fn put(&mut self, name: Name, row: Remote)
        requires place { HasPlace name self.old.rows }
        requires absent { table_of self.old.rows name ≡ None }
        requires fits { owed_in self.old.rows + debts.owed row < 2 ^ 64 }
        ensures row { HasRow name (Some row) self.old self.new }
        ensures owes { owed_in self.new.rows ≡ owed_in self.old.rows + debts.owed row }
    {
        self.owed += row.owed();
        self.rows.put(&name, row);
    }

    /// The node whose side it is.
    pub(crate) fn me(&self) -> NodeNo
        ensures { result ≡ self.now.me }
    {
        self.me
    }

    /// How many pieces this node may still have to post at the ends of its open sections.
    pub fn owed(&self) -> usize
        ensures { result ≡ owed_in self.now.rows }
    {
        self.owed
    }

    /// The number of bytes of the region with this name. None if it isn't mapped or cached here.
    pub fn size(&self, name: Name) -> Option<u32>
        ensures { result ≡ size_or_none (table_of self.now.rows name) }
    {
        match self.rows.get(&name) {
            Some(row) => Some(row.size()),
            None => None,
        }
    }

    /// The bytes of the copy of the region with this name. None if no copy is here.
    pub fn bytes(&self, name: Name) -> Option<&[u8]>
        ensures bytes { option_copied result ≡ bytes_in_row (table_of self.now.rows name) }
        ensures sized { IfSome result (λ bytes. length bytes.now ≡ (row_at name self.now).size) }
    {
        match self.rows.get(&name) {
            Some(row) => row.bytes(),
            None => None,
        }
    }

    /// Whether an exclusive copy of the region with this name is here.
    pub fn is_exclusive(&self, name: Name) -> bool
        ensures { result ≡ is_exclusive_row (table_of self.now.rows name) }
    {
        match self.rows.get(&name) {
            Some(row) => row.is_exclusive(),
            None => false,
        }
    }
}

/// How many pieces the row, if there is one, may still have to post.
fn owed_by(row: &Option<Remote>) -> usize
    ensures { result ≡ weight_of debts.owed row.now }
{
    match row {
        Some(row) => row.owed(),
        None => 0,
    }
}
