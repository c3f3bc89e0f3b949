//! What is read of a world at the end: its account, and how many messages there were.
ghost use Rattle.std.specs.Prelude.{◌≡◌, ◌<◌, ◌^◌, List, IfOk};
ghost use Rattle.crl_protocol.specs.World.{messages_sent};
ghost use Rattle.crl_journal.specs.Merging.{merged_account, all_lists};
ghost use Rattle.crl_journal.specs.Told.{EventEntries, entries_told, AreRecordsOf};
ghost use Rattle.crl_world.specs.Seen.{world_seen};
ghost use Rattle.crl_world.specs.Records.{records_by_node};

use crate::world::World;
use crl_journal::{Records, account};
use crl_member::Member;
use crl_model::OutOfMemory;
use crl_model::entry::Entry;
use std::alloc::Global;

impl<N: Member> World<N> {
    /// What each node recorded, by node.
    fn into_records(self, alloc: Global) -> Result<Vec<Records>, OutOfMemory>
        ensures { IfOk result (λ lists. all_lists lists.items ≡ records_by_node (world_seen N.state self)) }
    {
        let World {
            mut nodes,
            events: _,
            capacity: _,
        } = self;
        let mut lists = Vec::with_capacity(alloc, nodes.len())?;
        while !nodes.is_empty() {
            let node = nodes.remove(0);
            lists.push(node.into_records())?;
        }
        Ok(lists)
    }

    /// The entries of all nodes, by the positions of their events. The nodes are let go.
    ///
    /// # Errors
    ///
    /// `OutOfMemory`.
    pub fn account(self, alloc: Global) -> Result<Vec<Entry>, OutOfMemory>
        ensures merged { IfOk result (λ entries. entries.items ≡ merged_account (records_by_node (world_seen N.state self))) }
        // If that is what a run recorded, they are what the run told.
        ensures told { let lists = records_by_node (world_seen N.state self) in
            IfOk result (λ entries. (run : List EventEntries) → AreRecordsOf run lists → entries.items ≡ entries_told run) }
    {
        let lists = self.into_records(alloc)?;
        account(alloc, lists)
    }

    /// The number of messages that were sent.
    pub fn messages(&self) -> u128
        requires { messages_sent (world_seen N.state self.now) < 2 ^ 128 }
        ensures { result ≡ messages_sent (world_seen N.state self.now) }
    {
        let mut sum: u128 = 0;
        for i in 0..self.count() {
            sum += self.node(i).posted();
        }
        sum
    }
}
