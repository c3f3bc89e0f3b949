//! Which refusals a call may meet.
ghost use Rattle.std.specs.Prelude.{◌≡◌};
ghost use Rattle.crl_calls.specs.Answers as answers;

use crl_model::call::{CallKind, Refusal};

/// The call may be refused so when it is made.
fn may_meet(word: CallKind, why: Refusal) -> bool
    ensures { result ≡ answers.may_meet word why }
{
    match word {
        CallKind::Create => matches!(why, Refusal::BadSize | Refusal::NamesSpent),
        CallKind::Delete => is_absent(why),
        CallKind::Map => is_absent(why) || matches!(why, Refusal::TooMany),
        CallKind::Unmap | CallKind::Flush => {
            matches!(why, Refusal::NotMapped | Refusal::InSection)
        }
        CallKind::Read => matches!(
            why,
            Refusal::NotMapped | Refusal::SectionOpen | Refusal::TooMany
        ),
        CallKind::Write => matches!(why, Refusal::NotMapped | Refusal::SectionOpen),
        CallKind::Send => is_mixed(why) || matches!(why, Refusal::WrongSize),
        CallKind::Barrier | CallKind::Receive | CallKind::Sum | CallKind::Min | CallKind::Max =>
            is_mixed(why),
        CallKind::EndRead | CallKind::Put | CallKind::Add | CallKind::EndWrite => false,
    }
}

/// It may be refused so when its answer is collected.
fn may_collect(word: CallKind, why: Refusal) -> bool
    ensures { result ≡ answers.may_collect word why }
{
    match word {
        CallKind::Delete | CallKind::Map => is_absent(why),
        CallKind::Barrier
        | CallKind::Send
        | CallKind::Receive
        | CallKind::Sum
        | CallKind::Min
        | CallKind::Max => is_mixed(why),
        _ => false,
    }
}

/// The home doesn't have the region.
fn is_absent(why: Refusal) -> bool
    ensures { result ≡ answers.is_absent why }
{
    matches!(why, Refusal::Unknown | Refusal::Deleted)
}

/// The parts of a round don't agree.
fn is_mixed(why: Refusal) -> bool
    ensures { result ≡ answers.is_mixed why }
{
    matches!(why, Refusal::Mixed)
}

/// The call may be refused so, by whether the answer was collected.
pub(crate) fn may_refuse(word: CallKind, later: bool, why: Refusal) -> bool
    ensures { result ≡ answers.may_refuse word later why }
{
    if later {
        may_collect(word, why)
    } else {
        may_meet(word, why)
    }
}
