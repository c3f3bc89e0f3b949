//! The home's table of one region.
ghost use Rattle.std.specs.Prelude.{◌≡◌, ◌<◌, ◌≤◌, ◌^◌, IfOk, length};
ghost use Rattle.crl_protocol.specs.Home as table;
ghost use Rattle.crl_protocol.specs.Sections as sections;
ghost use Rattle.crl_home.specs.Debts as debts;
ghost use Rattle.crl_home.specs.Debts.{ask_debt, owed_to_asks};
ghost use Rattle.crl_home.specs.Fits.{asks_of};

use crate::copies::owed_to_copies;
use crate::waiting::Waiting;
use crl_model::bytes::Bytes;
use crl_model::directory::{Listing, Section};
use crl_model::{NodeNo, OutOfMemory};
use crl_pieces::parts::count;
use std::alloc::Global;
use std::collections::VecDeque;
use std::marker::Model;

/// The home's table of one region. A contract sees it as the `Home` of the protocol.
#[derive(Drop)]
pub struct Home {
    pub(crate) size: u32,
    pub(crate) bytes: Bytes,
    pub(crate) last: u64,
    pub(crate) listed: Vec<Option<Listing>>,
    pub(crate) queue: VecDeque<Waiting>,
    pub(crate) mine: Section,
}

impl Model for Home {
    ghost use Rattle.crl_protocol.specs.Home as table;
    ghost use Rattle.std.specs.Prelude.{◌≤◌, length};
    ghost use Rattle.std.specs.VecDeque.{deque_capacity};
    ghost use Rattle.crl_home.specs.Fits.{IsFit, asks_of};

    ghost Value = { table.Home };

    ghost view = { λ h. record { size = h.size; bytes = h.bytes; last = h.last; listed = h.listed.items; queue = asks_of h.queue.items; mine = h.mine } };

    ghost invariant = { λ h. IsFit h.size h.bytes h.listed.items h.queue.items × (length h.listed.items ≤ deque_capacity h.queue) };
}

impl Home {
    /// The table of a region of `size` zeros, among so many nodes, at most 64. It has a place for an ask of
    /// each node.
    ///
    /// # Errors
    ///
    /// `OutOfMemory`.
    pub(crate) fn new(alloc: Global, nodes: NodeNo, size: u32) -> Result<Home, OutOfMemory>
        requires { nodes ≤ 64 }
        ensures { IfOk result (λ home. home ≡ table.new_home nodes size) }
    {
        Ok(Home {
            size,
            bytes: Bytes::zeros(alloc, size as usize)?,
            last: 0,
            listed: vec![in alloc; None; nodes as usize]?,
            queue: VecDeque::with_capacity(alloc, nodes as usize)?,
            mine: Section::Closed,
        })
    }

    /// The region's bytes, as the home has them.
    pub(crate) fn bytes(&self) -> &[u8]
        ensures bytes { result.now ≡ self.now.bytes }
        ensures sized { length result.now ≡ self.now.size }
    {
        self.bytes.as_slice()
    }

    /// The number of the region's bytes.
    pub(crate) fn size(&self) -> u32
        ensures { result ≡ self.now.size }
    {
        self.size
    }

    /// How many pieces the home may still have to post of this region.
    pub(crate) fn owed(&self) -> usize
        requires { debts.owed self.now < 2 ^ 64 }
        ensures { result ≡ debts.owed self.now }
    {
        owed_to_asks(self.size, &self.queue) + owed_to_copies(&self.listed)
    }

    /// Whether the home itself has a write section of the region open.
    pub(crate) fn is_writing(&self) -> bool
        ensures { result ≡ sections.is_writing self.now.mine }
    {
        matches!(self.mine, Section::Writing)
    }
}

/// How many pieces may have to be posted for one ask.
#[tactic(auto, unfolding(crate::specs::Debts::ask_debt))]
fn ask_debt(size: u32) -> usize
    ensures debt { result ≡ ask_debt size }
    ensures bound { result ≤ 2 ^ 33 }
{
    count(size) as usize + 2
}

/// How many pieces may have to be posted for the asks of a queue.
fn owed_to_asks(size: u32, queue: &VecDeque<Waiting>) -> usize
    requires { owed_to_asks size (asks_of queue.now.items) < 2 ^ 64 }
    ensures { result ≡ owed_to_asks size (asks_of queue.now.items) }
{
    ask_debt(size) * queue.len()
}
