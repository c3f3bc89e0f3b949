//! The regions of one home, by serial.
ghost use Rattle.std.specs.Prelude.{◌≡◌, ◌+◌, ◌-◌, ◌<◌, ◌≤◌, ◌^◌, [], IsTrue, IfSome, OnOk, OnErr, length};
ghost use Rattle.crl_model.specs.declared.stage.Stage.TheVariants.{Live};
ghost use Rattle.crl_model.specs.Names.{at_node};
ghost use Rattle.crl_protocol.specs.Lifetimes.{new_lifetime, lifetime_with_asker, lifetime_begins_delete, lifetime_takes_purged};
ghost use Rattle.crl_stages.specs.RowLifetimes.{row_lifetime, RowFits};
ghost use Rattle.crl_stages.specs.StagesState.{lifetimes_of, lifetime_or_none, KeepsSize, HasRowMore};

use crate::row::Row;
use crl_model::stage::Stage;
use crl_model::{NodeNo, OutOfMemory};
use std::alloc::Global;
use std::marker::Model;

/// Who has the regions of one home: a row for each serial that was used, from 1. A contract sees it as a
/// `StagesState`. A row is 24 bytes.
#[derive(Drop)]
pub struct Stages {
    nodes: NodeNo,
    rows: Vec<Row>,
}

impl Model for Stages {
    ghost use Rattle.std.specs.Prelude.{◌-◌, vec_len, vec_capacity};
    ghost use Rattle.crl_stages.specs.StagesState.{StagesState, AreRows};

    ghost Value = { StagesState };

    ghost view = { λ s. record { nodes = s.nodes; rows = s.rows.items; spare = vec_capacity s.rows - vec_len s.rows } };

    ghost invariant = { λ s. AreRows s.nodes s.rows.items };
}

impl Stages {
    /// No serial is used, at a home among so many nodes.
    pub fn new(alloc: Global, nodes: NodeNo) -> Stages
        requires { nodes ≤ 64 }
        ensures nodes { result.nodes ≡ nodes }
        ensures rows { result.rows ≡ [] }
    {
        Stages {
            nodes,
            rows: Vec::new(alloc),
        }
    }

    /// A place for one more serial.
    ///
    /// # Errors
    ///
    /// `OutOfMemory`. Nothing changes.
    pub fn ready_serial(&mut self) -> Result<(), OutOfMemory>
        ensures same { self.new ≡ record self.old { spare = self.new.spare } }
        ensures more { self.old.spare ≤ self.new.spare }
        ensures ok { OnOk result (0 < self.new.spare) }
        ensures err { OnErr result (self.new ≡ self.old) }
    {
        self.rows.reserve(1)
    }

    /// The number of serials that were used.
    pub fn len(&self) -> usize
        ensures { result ≡ length self.now.rows }
    {
        self.rows.len()
    }

    /// The next serial is used, and this is its row.
    #[tactic(auto, using(crate::proofs::Places::pushed, crate::proofs::Places::rows_push))]
    fn push(&mut self, row: Row)
        requires place { 0 < self.old.spare }
        requires fits { RowFits self.old.nodes row }
        ensures lifetimes { lifetimes_of self.new ≡ at_node (lifetimes_of self.old) (length self.old.rows + 1) (row_lifetime row) }
        ensures more { HasRowMore self.old self.new }
    {
        self.rows.push_reserved(row);
    }

    /// The next serial is a new region's.
    pub fn add_live(&mut self)
        requires { 0 < self.old.spare }
        ensures lifetimes { lifetimes_of self.new ≡ at_node (lifetimes_of self.old) (length self.old.rows + 1) new_lifetime }
        ensures more { HasRowMore self.old self.new }
    {
        self.push(Row::live());
    }

    /// The next serial is used up by a create that is refused.
    #[tactic(auto, using(crate::proofs::Places::past_rows))]
    pub fn skip(&mut self)
        requires { 0 < self.old.spare }
        ensures lifetimes { lifetimes_of self.new ≡ lifetimes_of self.old }
        ensures more { HasRowMore self.old self.new }
    {
        self.push(Row::unknown());
    }

    /// The row of the serial, if there is one.
    #[tactic(auto, using(crate::proofs::Places::read, crate::proofs::Places::fits_at, crate::proofs::Places::nothing_past))]
    fn row(&self, serial: u32) -> Option<Row>
        ensures lifetime { lifetime_or_none result ≡ lifetimes_of self.now serial }
        ensures there { IfSome result (λ row. (0 < serial) × (serial ≤ length self.now.rows)) }
        ensures fits { IfSome result (λ row. RowFits self.now.nodes row) }
        ensures few { self.now.nodes ≤ 64 }
    {
        if serial == 0 || self.rows.len() < serial as usize {
            return None;
        }
        Some(self.rows[(serial - 1) as usize])
    }

    /// This is the row of the serial from now on.
    #[tactic(auto, using(crate::proofs::Places::written, crate::proofs::Places::rows_set))]
    fn set_row(&mut self, serial: u32, row: Row)
        requires there { (0 < serial) × (serial ≤ length self.old.rows) }
        requires fits { RowFits self.old.nodes row }
        ensures lifetimes { lifetimes_of self.new ≡ at_node (lifetimes_of self.old) serial (row_lifetime row) }
        ensures same { KeepsSize self.old self.new }
    {
        self.rows[(serial - 1) as usize] = row;
    }

    /// Where the region with this serial stands.
    pub fn stage(&self, serial: u32) -> Stage
        ensures { result ≡ (lifetimes_of self.now serial).stage }
    {
        match self.row(serial) {
            Some(row) => row.stage,
            None => Stage::Unknown,
        }
    }

    /// Whether the node asked for the region.
    pub fn is_asked(&self, serial: u32, node: NodeNo) -> bool
        requires { node < self.now.nodes }
        ensures { result ≡ (lifetimes_of self.now serial).asked node }
    {
        match self.row(serial) {
            Some(row) => row.asked.has(node),
            None => false,
        }
    }

    /// Whether a delete of the region waits for the node.
    pub fn is_missing(&self, serial: u32, node: NodeNo) -> bool
        requires { node < self.now.nodes }
        ensures { result ≡ (lifetimes_of self.now serial).missing node }
    {
        match self.row(serial) {
            Some(row) => row.missing.has(node),
            None => false,
        }
    }

    /// A node asks whether the region is there.
    #[tactic(auto, using(crate::proofs::Places::unknown_asked))]
    pub fn add_asker(&mut self, serial: u32, from: NodeNo)
        requires { from < self.old.nodes }
        ensures lifetimes { lifetimes_of self.new ≡ at_node (lifetimes_of self.old) serial (lifetime_with_asker from (lifetimes_of self.old serial)) }
        ensures same { KeepsSize self.old self.new }
    {
        if let Some(row) = self.row(serial) {
            self.set_row(serial, row.with_asker(from));
        }
    }

    /// The delete of a live region begins.
    pub fn begin_delete(&mut self, serial: u32, deleter: NodeNo)
        requires { (lifetimes_of self.old serial).stage ≡ Live }
        ensures lifetimes { lifetimes_of self.new ≡ at_node (lifetimes_of self.old) serial (lifetime_begins_delete self.old.nodes deleter (lifetimes_of self.old serial)) }
        ensures same { KeepsSize self.old self.new }
    {
        if let Some(row) = self.row(serial) {
            self.set_row(serial, row.begin_delete(self.nodes, deleter));
        }
    }

    /// A node for which a delete waits has parted with its copy.
    pub fn take_purged(&mut self, serial: u32, from: NodeNo)
        requires { IsTrue ((lifetimes_of self.old serial).missing from) }
        ensures lifetimes { lifetimes_of self.new ≡ at_node (lifetimes_of self.old) serial (lifetime_takes_purged self.old.nodes from (lifetimes_of self.old serial)) }
        ensures same { KeepsSize self.old self.new }
    {
        if let Some(row) = self.row(serial) {
            self.set_row(serial, row.take_purged(self.nodes, from));
        }
    }
}
