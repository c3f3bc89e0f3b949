//! Why a work wasn't done.

use crl_calls::CallFault;
use crl_world::StartFault;
use std::alloc::{AllocError, AllocFailed};
use std::io;

/// A call was refused, an end found no section or no room in the history, or memory was wanting.
#[derive(Clone, Copy, Debug, PartialEq, Eq)]
pub struct Failed;

impl From<CallFault> for Failed {
    fn from(_: CallFault) -> Failed {
        Failed
    }
}

impl From<StartFault> for Failed {
    fn from(_: StartFault) -> Failed {
        Failed
    }
}

impl From<AllocError> for Failed {
    fn from(_: AllocError) -> Failed {
        Failed
    }
}

impl<T: Drop> From<AllocFailed<T>> for Failed {
    fn from(_: AllocFailed<T>) -> Failed {
        Failed
    }
}

impl From<io::Error> for Failed {
    fn from(_: io::Error) -> Failed {
        Failed
    }
}
