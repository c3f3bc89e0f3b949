//! The regions of the single machine, listed.
ghost use Rattle.std.specs.Prelude.{◌≡◌, ◌<◌, ◌++◌, IfOk, OnOk};
ghost use Rattle.crl_machine.specs.Seen.{state};
ghost use Rattle.crl_machine.specs.FinalRegions.{region_named, regions_at, final_regions};

use crate::machine::Machine;
use crl_model::bytes::Bytes;
use crl_model::name::Name;
use crl_model::report::FinalRegion;
use crl_model::{NodeNo, OutOfMemory};

impl Machine {
    /// Every region that is there, by name, with its bytes.
    ///
    /// # Errors
    ///
    /// `OutOfMemory`.
    pub fn final_regions(&self) -> Result<Vec<FinalRegion>, OutOfMemory>
        ensures { IfOk result (λ r. r.items ≡ final_regions (state self.now)) }
    {
        let mut regions = Vec::new(self.alloc);
        for home in 0..self.nodes() {
            self.add_home(home, &mut regions)?;
        }
        Ok(regions)
    }

    /// The regions of one home, by serial.
    fn add_home(&self, home: NodeNo, regions: &mut Vec<FinalRegion>) -> Result<(), OutOfMemory>
        requires { home < (state self.now).nodes }
        ensures { OnOk result (regions.new.items ≡ regions.old.items ++ regions_at (state self.now) home 1 ((state self.now).used home)) }
    {
        for count in 0..self.used(home) {
            self.add_name(Name::new(home, count + 1), regions)?;
        }
        Ok(())
    }

    /// The region of this name, if it is there.
    fn add_name(&self, name: Name, regions: &mut Vec<FinalRegion>) -> Result<(), OutOfMemory>
        ensures { OnOk result (regions.new.items ≡ regions.old.items ++ region_named (state self.now) name) }
    {
        if let Some(bytes) = self.bytes(name) {
            regions.push(FinalRegion {
                name,
                bytes: Bytes::copy_of(self.alloc, bytes)?,
            })?;
        }
        Ok(())
    }
}
