//! What is wrong with a text that is no script.
use crl_model::OutOfMemory;
use std::alloc::AllocFailed;
use thiserror::Error;

/// Why a text is no script.
#[derive(Clone, Copy, Debug, PartialEq, Eq)]
pub enum ScriptWhy {
    /// The first line that isn't skipped isn't `nodes N`.
    NoNodes,
    /// The number of nodes is outside 1 to 64.
    BadNodes,
    /// An unknown word, a word at a wrong place, a wrong number of words, or a label that isn't one.
    BadWord,
    /// A word that is no number, or a number past its limit.
    BadNumber,
    /// A word that is no bytes in hexadecimal.
    BadHex,
    /// A label that no `create` of the script has.
    UnknownLabel,
    /// A second `create` of one label.
    TwiceLabel,
    /// A size that is no number, or a number past its limit.
    BadSize,
    /// The number of a node that the script doesn't have.
    BadNode,
    /// A second block of one node.
    TwiceNode,
    /// A line of more than 140,000 bytes.
    LineTooLong,
}

/// Why a script wasn't read.
#[derive(Debug, Drop, Error)]
pub enum ScriptFault {
    /// The first line with a fault, counted from 1, and the first of its faults.
    #[error("bad script {line} {why:?}")]
    Bad { line: u64, why: ScriptWhy },
    /// Memory ran out.
    #[error("out of memory")]
    OutOfMemory,
}

/// Why a part of a script wasn't read.
#[derive(Debug, Drop)]
pub(crate) enum LineFault {
    Bad(ScriptWhy),
    Memory,
}

impl From<OutOfMemory> for LineFault {
    ghost use Rattle.std.specs.Prelude.{◌≡◌};
    ghost use Rattle.crl_script.specs.declared.fault.LineFault.TheVariants.{Memory};

    ghost from_gives = { λ _ e. e ≡ Memory };

    fn from(_fault: OutOfMemory) -> LineFault {
        LineFault::Memory
    }
}

impl<T: Drop> From<AllocFailed<T>> for LineFault {
    ghost use Rattle.std.specs.Prelude.{◌≡◌};
    ghost use Rattle.crl_script.specs.declared.fault.LineFault.TheVariants.{Memory};

    ghost from_gives = { λ _ e. e ≡ Memory };

    fn from(_fault: AllocFailed<T>) -> LineFault {
        LineFault::Memory
    }
}
