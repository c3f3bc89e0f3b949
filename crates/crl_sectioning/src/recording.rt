//! An act that leaves an entry.
ghost use Rattle.std.specs.Prelude.{◌≡◌};
ghost use Rattle.crl_protocol.specs.Node.{Done};
ghost use Rattle.crl_desk.specs.Desks.{state, HasRoom};
ghost use Rattle.crl_sectioning.specs.Acts.{with_entry};

use crl_desk::Desk;
use crl_guard::{Reading, Writing};
use crl_model::activity::Answer;
use crl_model::entry::{Entry, What};

/// The node's entry, after which its call is done.
pub(crate) fn record(desk: &mut Desk, at: u64, what: What) -> Answer<Reading, Writing>
    requires room { HasRoom 0 1 1 desk.old }
    ensures state { state desk.new ≡ with_entry at what (state desk.old) }
    ensures answer { result ≡ Done }
    ensures room { HasRoom 0 0 1 desk.new }
{
    let node = desk.me;
    desk.journal.record(at, Entry { node, what });
    Answer::Done
}
