//! Names of regions.
ghost use Rattle.std.specs.Prelude.{◌≡◌, ◌+◌, ◌*◌, ◌^◌};

use crate::NodeNo;

/// The name of a region: the number of its home, which is the node that created it, and its serial
/// there, from 1. It is written `home:serial`. Names are ordered by home, then by serial.
#[derive(Clone, Copy, Debug, PartialEq, Eq, PartialOrd, Ord)]
pub struct Name {
    pub home: NodeNo,
    pub serial: u32,
}

impl Name {
    /// The name with this home and serial.
    pub fn new(home: NodeNo, serial: u32) -> Name
        ensures { result ≡ record { home = home; serial = serial } }
    {
        Name { home, serial }
    }

    /// The node that created the region.
    pub fn home(&self) -> NodeNo
        ensures { result ≡ self.now.home }
    {
        self.home
    }

    /// The count of the home's creates up to this one.
    pub fn serial(&self) -> u32
        ensures { result ≡ self.now.serial }
    {
        self.serial
    }

    /// The name as one number, by which names are ordered: home times 2^32 plus serial.
    pub fn value(&self) -> u64
        ensures { result ≡ self.now.home * 2 ^ 32 + self.now.serial }
    {
        self.home as u64 * 0x1_0000_0000 + self.serial as u64
    }
}
