//! Why bytes could not be read as a frame.
use crl_model::OutOfMemory;
use thiserror::Error;

/// Why bytes could not be read as a frame.
#[derive(Clone, Copy, Debug, PartialEq, Eq, Error)]
pub enum WireFault {
    /// Fewer bytes than the header, or than the header and the body whose length it says.
    #[error("the frame is short")]
    Short,
    /// More bytes than the header and its body.
    #[error("the frame is long")]
    Long,
    /// No kind of message has this number.
    #[error("the frame is of no kind")]
    BadKind,
    /// A field of the header isn't as the row of its kind says.
    #[error("a field of the frame is bad")]
    BadField,
    #[error("out of memory")]
    OutOfMemory,
}

impl From<OutOfMemory> for WireFault {
    ghost use Rattle.std.specs.Prelude.{◌≡◌};
    ghost use Rattle.crl_wire.specs.declared.fault.WireFault.TheVariants as faults;

    ghost from_gives = { λ _ e. e ≡ faults.OutOfMemory };

    fn from(_error: OutOfMemory) -> WireFault {
        WireFault::OutOfMemory
    }
}
