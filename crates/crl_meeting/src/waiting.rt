//! In which round a node waits.
ghost use Rattle.std.specs.Prelude.{◌≡◌};
ghost use Rattle.crl_meeting.specs.Meetings.{round_waited, kind_waiting};

use crl_guard::Standing;
use crl_model::activity::Awaited;
use crl_model::call::CallKind;

/// A round in which a node waits, and the call with which it came.
#[derive(Clone, Copy)]
pub(crate) struct RoundWaited {
    pub(crate) round: u64,
    pub(crate) kind: CallKind,
}

/// The round in which the node waits, if it waits in one.
pub(crate) fn round_waited(standing: &Standing) -> Option<RoundWaited>
    ensures { result ≡ round_waited standing.now }
{
    match standing.awaited() {
        Some(Awaited::ForRound { round, kind }) => Some(RoundWaited { round, kind }),
        _ => None,
    }
}

/// The call with which the node came to this very round, if it waits in it.
pub(crate) fn kind_waiting(standing: &Standing, round: u64) -> Option<CallKind>
    ensures { result ≡ kind_waiting round (round_waited standing.now) }
{
    match round_waited(standing) {
        Some(waited) if waited.round == round => Some(waited.kind),
        _ => None,
    }
}
