//! Why an account could not be read.
ghost use Rattle.std.specs.Prelude.{◌≡◌};

use crl_model::OutOfMemory;
use std::alloc::AllocFailed;
use thiserror::Error;

/// Why an account could not be read.
#[derive(Debug, Drop, Error)]
pub enum AccountFault {
    /// The first line, from 1, that fits no allowed place.
    #[error("line {0} is no line of an account")]
    BadLine(u64),
    #[error("out of memory")]
    OutOfMemory,
}

/// Why a line could not be read.
#[derive(Debug, Drop)]
pub(crate) enum LineFault {
    Bad,
    OutOfMemory,
}

impl From<OutOfMemory> for LineFault {
    ghost use Rattle.crl_account_reader.specs.declared.fault.LineFault.TheVariants as faults;

    ghost from_gives = { λ _ e. e ≡ faults.OutOfMemory };

    fn from(_error: OutOfMemory) -> LineFault {
        LineFault::OutOfMemory
    }
}

impl<T: Drop> From<AllocFailed<T>> for LineFault {
    ghost use Rattle.crl_account_reader.specs.declared.fault.LineFault.TheVariants as faults;

    ghost from_gives = { λ _ e. e ≡ faults.OutOfMemory };

    fn from(_error: AllocFailed<T>) -> LineFault {
        LineFault::OutOfMemory
    }
}
