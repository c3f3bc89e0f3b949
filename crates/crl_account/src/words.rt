//! The words of calls and of refusals.
ghost use Rattle.std.specs.Prelude.{◌≡◌};
ghost use Rattle.crl_account.specs.Text as text;

use crl_model::call::{CallKind, Refusal};

/// The script's word for a call.
pub fn call_word(kind: CallKind) -> &'static str
    ensures { result.now ≡ text.call_word kind }
{
    match kind {
        CallKind::Create => "create",
        CallKind::Delete => "delete",
        CallKind::Map => "map",
        CallKind::Unmap => "unmap",
        CallKind::Read => "read",
        CallKind::EndRead => "endread",
        CallKind::Write => "write",
        CallKind::Put => "put",
        CallKind::Add => "add",
        CallKind::EndWrite => "endwrite",
        CallKind::Flush => "flush",
        CallKind::Barrier => "barrier",
        CallKind::Send => "send",
        CallKind::Receive => "receive",
        CallKind::Sum => "sum",
        CallKind::Min => "min",
        CallKind::Max => "max",
    }
}

/// The word for the reason of a refusal.
pub fn refusal_word(why: Refusal) -> &'static str
    ensures { result.now ≡ text.refusal_word why }
{
    match why {
        Refusal::BadSize => "BadSize",
        Refusal::NamesSpent => "NamesSpent",
        Refusal::Unknown => "Unknown",
        Refusal::Deleted => "Deleted",
        Refusal::NotMapped => "NotMapped",
        Refusal::SectionOpen => "SectionOpen",
        Refusal::NotReading => "NotReading",
        Refusal::NotWriting => "NotWriting",
        Refusal::InSection => "InSection",
        Refusal::OutOfRange => "OutOfRange",
        Refusal::WrongSize => "WrongSize",
        Refusal::TooMany => "TooMany",
        Refusal::Mixed => "Mixed",
    }
}
