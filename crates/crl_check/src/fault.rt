//! Why a history isn't taken.
ghost use Rattle.std.specs.Prelude.{◌≡◌};

use crl_account_reader::AccountFault;
use crl_model::OutOfMemory;
use thiserror::Error;

/// Why a history isn't taken.
#[derive(Debug, Drop, Error)]
pub enum CheckFault {
    /// The first line of an account, from 1, that fits no allowed place.
    #[error("line {0} is no line of an account")]
    BadLine(u64),
    /// The first entry, counted from 0, that is no legal step after those before it.
    #[error("entry {0} is no legal step")]
    Illegal(usize),
    #[error("out of memory")]
    OutOfMemory,
}

impl From<AccountFault> for CheckFault {
    ghost use Rattle.crl_check.specs.Faults.{fault_of};

    ghost from_gives = { λ fault e. e ≡ fault_of fault };

    fn from(fault: AccountFault) -> CheckFault {
        match fault {
            AccountFault::BadLine(line) => CheckFault::BadLine(line),
            AccountFault::OutOfMemory => CheckFault::OutOfMemory,
        }
    }
}

impl From<OutOfMemory> for CheckFault {
    ghost use Rattle.crl_check.specs.declared.fault.CheckFault.TheVariants as faults;

    ghost from_gives = { λ _ e. e ≡ faults.OutOfMemory };

    fn from(_error: OutOfMemory) -> CheckFault {
        CheckFault::OutOfMemory
    }
}
