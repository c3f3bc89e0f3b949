//! The regions whose home is one node.
ghost use Rattle.std.specs.Prelude.{◌≡◌, ◌+◌, ◌-◌, ◌<◌, ◌≤◌, ◌^◌, ◌++◌, ◌∷◌, [], IfOk, IsSome, Some, None, length, OnOk, OnErr, option_copied};
ghost use Rattle.crl_protocol.specs.Home as table;
ghost use Rattle.crl_protocol.specs.Node.{at_serial};
ghost use Rattle.crl_protocol.specs.Places.{at};
ghost use Rattle.crl_protocol.specs.Sections as sections;
ghost use Rattle.crl_home.specs.HomesState.{owed_in, owed_of, HasNodes, table_at, size_or_none, next_name, with_serial};

use crate::home::Home;
use crl_model::name::Name;
use crl_model::{NodeNo, OutOfMemory};
use std::alloc::Global;
use std::marker::Model;

/// The regions of one home, by serial from 1. A contract sees them as `HomesState`: the tables of the
/// protocol, and how many more serials there is place for.
#[derive(Drop)]
pub struct Homes {
    pub(crate) me: NodeNo,
    pub(crate) nodes: NodeNo,
    pub(crate) regions: Vec<Option<Home>>,
    pub(crate) owed: usize,
}

impl Model for Homes {
    ghost use Rattle.std.specs.Prelude.{◌-◌, vec_len, vec_capacity};
    ghost use Rattle.crl_home.specs.HomesState.{HomesState, AreHomes};

    ghost Value = { HomesState };

    ghost view = { λ h. record { me = h.me; nodes = h.nodes; homes = h.regions.items; spare = vec_capacity h.regions - vec_len h.regions } };

    ghost invariant = { λ h. AreHomes h.me h.nodes h.regions.items h.owed };
}

impl Homes {
    /// No region, at this one of so many nodes.
    pub fn new(alloc: Global, me: NodeNo, nodes: NodeNo) -> Homes
        requires node { me < nodes }
        requires few { nodes ≤ 64 }
        ensures node { (result.me ≡ me) × (result.nodes ≡ nodes) }
        ensures homes { result.homes ≡ [] }
    {
        Homes {
            me,
            nodes,
            regions: Vec::new(alloc),
            owed: 0,
        }
    }

    /// A place for one more serial.
    ///
    /// # Errors
    ///
    /// `OutOfMemory`. Nothing changes.
    pub fn ready_serial(&mut self) -> Result<(), OutOfMemory>
        ensures same { self.new ≡ record self.old { spare = self.new.spare } }
        ensures more { self.old.spare ≤ self.new.spare }
        ensures ok { OnOk result (0 < self.new.spare) }
        ensures err { OnErr result (self.new ≡ self.old) }
    {
        self.regions.reserve(1)
    }

    /// A place for one more serial, and the table of a region of `size` zeros for it.
    ///
    /// # Errors
    ///
    /// `OutOfMemory`. No region changes, and no serial is used.
    pub fn ready_create(&mut self, alloc: Global, size: u32) -> Result<Home, OutOfMemory>
        ensures same { self.new ≡ record self.old { spare = self.new.spare } }
        ensures table { IfOk result (λ home. home ≡ table.new_home self.old.nodes size) }
        ensures more { self.old.spare ≤ self.new.spare }
        ensures ok { OnOk result (0 < self.new.spare) }
    {
        self.ready_serial()?;
        Home::new(alloc, self.nodes, size)
    }

    /// The next serial is used, by a region or by none. Answers its name.
    #[tactic(auto, using(crate::proofs::Regions::owed_push, crate::proofs::Regions::nodes_push))]
    fn push(&mut self, home: Option<Home>) -> Name
        requires place { 0 < self.old.spare }
        requires serial { length self.old.homes + 1 < 2 ^ 32 }
        requires nodes { HasNodes self.old.nodes home }
        requires owes { owed_of home ≡ 0 }
        ensures homes { self.new ≡ with_serial home self.old }
        ensures name { result ≡ next_name self.old }
        ensures owes { owed_in self.new.homes ≡ owed_in self.old.homes }
    {
        self.regions.push_reserved(home);
        Name::new(self.me, self.regions.len() as u32)
    }

    /// The next serial is this new region's. Answers its name.
    #[tactic(auto, using(crate::proofs::Regions::new_nodes, crate::proofs::Regions::new_owes))]
    pub fn create(&mut self, home: Home) -> Name
        requires place { 0 < self.old.spare }
        requires serial { length self.old.homes + 1 < 2 ^ 32 }
        requires table { home ≡ table.new_home self.old.nodes home.size }
        ensures homes { self.new ≡ with_serial (Some home) self.old }
        ensures name { result ≡ next_name self.old }
        ensures owes { owed_in self.new.homes ≡ owed_in self.old.homes }
    {
        self.push(Some(home))
    }

    /// The next serial is used up by a create that is refused. Answers the name that it would have had.
    pub fn skip_serial(&mut self) -> Name
        requires place { 0 < self.old.spare }
        requires serial { length self.old.homes + 1 < 2 ^ 32 }
        ensures homes { self.new ≡ with_serial None self.old }
        ensures name { result ≡ next_name self.old }
        ensures owes { owed_in self.new.homes ≡ owed_in self.old.homes }
    {
        self.push(None)
    }

    /// The number of serials that were used.
    pub fn serial(&self) -> u32
        ensures { result ≡ length self.now.homes }
    {
        self.regions.len() as u32
    }

    /// How many pieces this node may still have to post as a home, whatever comes.
    pub fn owed(&self) -> usize
        ensures { result ≡ owed_in self.now.homes }
    {
        self.owed
    }

    /// The table of the region with this name, if there is one.
    fn table(&self, name: Name) -> Option<&Home>
        ensures { option_copied result ≡ at_serial name.serial self.now.homes }
    {
        if name.serial == 0 {
            return None;
        }
        read_at(&self.regions, (name.serial - 1) as usize)
    }

    /// The number of bytes of the region with this name. None if there is no such region.
    pub fn size(&self, name: Name) -> Option<u32>
        ensures { result ≡ size_or_none (at_serial name.serial self.now.homes) }
    {
        match self.table(name) {
            Some(home) => Some(home.size()),
            None => None,
        }
    }

    /// The region's bytes, as its home has them.
    pub fn bytes(&self, name: Name) -> &[u8]
        requires there { IsSome (at_serial name.serial self.now.homes) }
        ensures bytes { result.now ≡ (table_at name self.now.homes).bytes }
        ensures sized { length result.now ≡ (table_at name self.now.homes).size }
    {
        match self.table(name) {
            Some(home) => home.bytes(),
            None => &[],
        }
    }

    /// Whether the home itself has a write section of the region open.
    pub fn is_writing(&self, name: Name) -> bool
        requires there { IsSome (at_serial name.serial self.now.homes) }
        ensures { result ≡ sections.is_writing (table_at name self.now.homes).mine }
    {
        match self.table(name) {
            Some(home) => home.is_writing(),
            None => false,
        }
    }
}

/// The table at this place, if there is one.
#[tactic(auto, using(crate::proofs::Putting::at_is_read, crate::proofs::Putting::at_past))]
fn read_at(regions: &Vec<Option<Home>>, place: usize) -> Option<&Home>
    ensures { option_copied result ≡ at place regions.now.items }
{
    if place >= regions.len() {
        return None;
    }
    regions[place].as_ref()
}
