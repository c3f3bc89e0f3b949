//! What a node keeps.
ghost use Rattle.std.specs.Prelude.{◌≡◌, ◌+◌, ◌<◌, ◌≤◌, OnOk, IfOk};
ghost use Rattle.crl_protocol.specs.Node.{new_node};
ghost use Rattle.crl_desk.specs.Desks.{state, HasRoom};

use crl_cache::Cache;
use crl_gathering::Round;
use crl_guard::Standing;
use crl_home::Homes;
use crl_journal::Journal;
use crl_model::mapping::Mapping;
use crl_model::{NodeNo, OutOfMemory};
use crl_outbox::Mailbox;
use crl_parcels::Parcels;
use crl_remote::Remotes;
use crl_sections::Sections;
use crl_stages::Stages;
use crl_table::Table;
use std::alloc::Global;

/// All that a node keeps. `state` is the node of the protocol that it stands for.
#[derive(Drop)]
pub struct Desk {
    pub alloc: Global,
    /// The node, and the number of nodes.
    pub me: NodeNo,
    pub nodes: NodeNo,
    /// Of its own regions: their tables, and who has them.
    pub homes: Homes,
    pub stages: Stages,
    /// Of other nodes' regions that are mapped or cached here.
    pub remotes: Remotes,
    pub maps: Table<Mapping>,
    pub cache: Cache,
    pub sections: Sections,
    /// The round that node 0 gathers, and the number of rounds to which this node came.
    pub round: Round,
    pub rounds: u64,
    pub standing: Standing,
    pub inbox: Mailbox,
    pub outbox: Mailbox,
    /// The pieces that came of messages of which some are missing.
    pub parcels: Parcels,
    pub journal: Journal,
    /// The number of pieces that it sent.
    pub posted: u128,
}

impl Desk {
    /// The desk of a node that did nothing yet, with room for so many names in its cache.
    ///
    /// # Errors
    ///
    /// `OutOfMemory`.
    pub fn new(alloc: Global, me: NodeNo, nodes: NodeNo, capacity: u16) -> Result<Desk, OutOfMemory>
        requires node { me < nodes }
        requires few { nodes ≤ 64 }
        ensures state { IfOk result (λ desk. state desk ≡ new_node nodes capacity me) }
        ensures room { IfOk result (λ desk. HasRoom 0 0 0 desk) }
    {
        Ok(Desk {
            alloc,
            me,
            nodes,
            homes: Homes::new(alloc, me, nodes),
            stages: Stages::new(alloc, nodes),
            remotes: Remotes::new(alloc, me),
            maps: Table::new(alloc),
            cache: Cache::new(alloc, capacity)?,
            sections: Sections::new(alloc),
            round: Round::new(alloc, nodes)?,
            rounds: 0,
            standing: Standing::new(),
            inbox: Mailbox::new(alloc),
            outbox: Mailbox::new(alloc),
            parcels: Parcels::new(alloc),
            journal: Journal::new(alloc),
            posted: 0,
        })
    }

    /// Room for so many pieces, records and notes beside what is owed.
    ///
    /// # Errors
    ///
    /// `OutOfMemory`.
    pub fn make_room(
        &mut self,
        pieces: usize,
        records: usize,
        notes: usize,
    ) -> Result<(), OutOfMemory>
        requires room { HasRoom 0 0 0 self.old }
        ensures state { state self.new ≡ state self.old }
        ensures ok { OnOk result (HasRoom pieces records notes self.new) }
        ensures room { HasRoom 0 0 0 self.new }
    {
        let owed = self
            .homes
            .owed()
            .checked_add(self.remotes.owed())
            .ok_or(OutOfMemory)?;
        let places = owed.checked_add(pieces).ok_or(OutOfMemory)?;
        let guards = self.sections.guards();
        let records = guards.checked_add(records).ok_or(OutOfMemory)?;
        let notes = guards.checked_add(notes).ok_or(OutOfMemory)?;
        self.outbox.reserve(places)?;
        self.journal.reserve(records, notes)
    }
}
