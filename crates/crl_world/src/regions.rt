//! The regions at the end, with their bytes.
ghost use Rattle.std.specs.Prelude.{◌≡◌, ◌<◌, ◌++◌, ℕ, List, length, IfOk, OnOk};
ghost use Rattle.std.specs.Option.{option_copied};
ghost use Rattle.crl_protocol.specs.Ends as ends;
ghost use Rattle.crl_world.specs.Seen.{world_seen};
ghost use Rattle.crl_world.specs.Regions.{FirstIs};

use crate::world::World;
use crl_member::Member;
use crl_model::bytes::Bytes;
use crl_model::name::Name;
use crl_model::report::FinalRegion;
use crl_model::{NodeNo, OutOfMemory};
use std::alloc::Global;

impl<N: Member> World<N> {
    /// The bytes of the exclusive copy of the region, if another home's region has one: that of the least node.
    fn exclusive_bytes(&self, name: Name) -> Option<&[u8]>
        ensures { FirstIs name (world_seen N.state self.now) (option_copied result) }
    {
        for i in 0..self.count() {
            if let Some(bytes) = self.node(i).exclusive_bytes(name) {
                return Some(bytes);
            }
        }
        None
    }

    /// The bytes of a region that is there, where no message is under way: those of the exclusive copy, where there is
    /// one, else the home's.
    pub fn final_bytes(&self, name: Name) -> Option<&[u8]>
        ensures { option_copied result ≡ ends.final_bytes name (world_seen N.state self.now) }
    {
        if name.home >= self.count() {
            return None;
        }
        let kept = self.node(name.home).home_bytes(name)?;
        match self.exclusive_bytes(name) {
            Some(bytes) => Some(bytes),
            None => Some(kept),
        }
    }

    /// Pushes the region, if it is there.
    fn push_region(
        &self,
        alloc: Global,
        regions: &mut Vec<FinalRegion>,
        name: Name,
    ) -> Result<(), OutOfMemory>
        ensures { let w = world_seen N.state self.now in
            OnOk result (regions.new.items ≡ regions.old.items ++ ends.region_line name (ends.final_bytes name w)) }
    {
        if let Some(bytes) = self.final_bytes(name) {
            let bytes = Bytes::copy_of(alloc, bytes)?;
            regions.push(FinalRegion { name, bytes })?;
        }
        Ok(())
    }

    /// Pushes the regions of the home that are there, by name.
    fn push_regions(
        &self,
        alloc: Global,
        regions: &mut Vec<FinalRegion>,
        i: NodeNo,
    ) -> Result<(), OutOfMemory>
        requires { i < length self.now.nodes }
        ensures { let w = world_seen N.state self.now in
            OnOk result (regions.new.items ≡ regions.old.items ++ ends.regions_of i 1 (w.nodes i).homes w) }
    {
        for serial in 0..self.node(i).serials() {
            self.push_region(alloc, regions, Name::new(i, serial + 1))?;
        }
        Ok(())
    }

    /// The regions that are there, by name, where no message is under way.
    ///
    /// # Errors
    ///
    /// `OutOfMemory`.
    pub fn regions(&self, alloc: Global) -> Result<Vec<FinalRegion>, OutOfMemory>
        ensures { IfOk result (λ list. list.items ≡ ends.regions (world_seen N.state self.now)) }
    {
        let mut list = Vec::new(alloc);
        for i in 0..self.count() {
            self.push_regions(alloc, &mut list, i)?;
        }
        Ok(list)
    }
}
