//! `check NODES`: the judging of an account.
ghost use Rattle.std.specs.Prelude.{◌≡◌, ◌≤◌, ◌<◌, ◌+◌, IfOk, length};
ghost use Rattle.crl_cli.specs.Outcome.{SaysCheck};
ghost use Rattle.crl_cli.specs.Texts.{legal_text, illegal_text, bad_account_text};

use crate::ACCOUNT_LIMIT;
use crate::outcome::Outcome;
use crate::status::Status;
use crl_check::{CheckFault, check_account};
use crl_model::{NODE_LIMIT, NodeNo, OutOfMemory};
use std::alloc::Global;

/// Judges the account that these bytes are. Each entry is a line, from the first on.
pub(crate) fn check_text(alloc: Global, bytes: &[u8], nodes: NodeNo) -> Result<Outcome, OutOfMemory>
    requires within { length bytes.now ≤ ACCOUNT_LIMIT + 1 }
    requires some { 1 ≤ nodes }
    requires few { nodes ≤ NODE_LIMIT }
    ensures { IfOk result (λ o. SaysCheck nodes o.status bytes.now o.text.items) }
{
    let len = bytes.len();
    if len > ACCOUNT_LIMIT {
        return bad_account(alloc, 0);
    }
    match check_account(alloc, bytes, nodes) {
        Ok(()) => legal(alloc),
        Err(CheckFault::Illegal(place)) => {
            prove!(place < len);
            illegal(alloc, place as u64 + 1)
        }
        Err(CheckFault::BadLine(line)) => bad_account(alloc, line),
        Err(CheckFault::OutOfMemory) => Err(OutOfMemory),
    }
}

/// The answer to a legal history.
fn legal(alloc: Global) -> Result<Outcome, OutOfMemory>
    ensures status { IfOk result (λ o. o.status ≡ Status.Ok) }
    ensures text { IfOk result (λ o. o.text.items ≡ legal_text) }
{
    Ok(Outcome {
        status: Status::Ok,
        text: Vec::from_slice(alloc, b"legal\n")?,
    })
}

/// The answer to an entry, on this line, that is no legal step.
fn illegal(alloc: Global, line: u64) -> Result<Outcome, OutOfMemory>
    ensures status { IfOk result (λ o. o.status ≡ Status.Illegal) }
    ensures text { IfOk result (λ o. o.text.items ≡ illegal_text line) }
{
    let text = format!(in alloc; "illegal {line}\n")?;
    Ok(Outcome {
        status: Status::Illegal,
        text: text.into_bytes(),
    })
}

/// The answer to a line that fits no place, or with line 0 to too many bytes.
fn bad_account(alloc: Global, line: u64) -> Result<Outcome, OutOfMemory>
    ensures status { IfOk result (λ o. o.status ≡ Status.BadAccount) }
    ensures text { IfOk result (λ o. o.text.items ≡ bad_account_text line) }
{
    let text = format!(in alloc; "bad account {line}\n")?;
    Ok(Outcome {
        status: Status::BadAccount,
        text: text.into_bytes(),
    })
}
