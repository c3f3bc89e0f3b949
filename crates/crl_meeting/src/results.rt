//! What a round gives is told to the nodes, and written down.
ghost use Rattle.std.specs.Prelude.{◌≡◌, ◌+◌, ◌-◌, ◌<◌, ◌≤◌, ◌++◌, ◌∷◌, [], length};
ghost use Rattle.crl_protocol.specs.Calls.{result_of, answer_of};
ghost use Rattle.crl_protocol.specs.Node.{entry_of};
ghost use Rattle.crl_protocol.specs.Parcels.{pieces_in};
ghost use Rattle.crl_protocol.specs.World.{records_of};
ghost use Rattle.crl_gathering.specs.Lengths.{fold_bytes};
ghost use Rattle.crl_meeting.specs.PapersState.{HasFoldPapers};
ghost use Rattle.crl_meeting.specs.Meetings.{result_messages};

use crate::papers::Papers;
use crl_gathering::copy_fold;
use crl_guard::{Reading, Writing};
use crl_journal::Journal;
use crl_model::NodeNo;
use crl_model::activity::Answer;
use crl_model::call::{CallKind, Refusal};
use crl_model::collective::Fold;
use crl_model::entry::{Entry, Place, What};
use crl_model::message::{Kind, Message};
use crl_outbox::{Mailbox, Paper};

/// Posts what the round gives to each node but node 0. One paper is left.
pub(crate) fn post_results(
    outbox: &mut Mailbox,
    papers: &mut Papers,
    me: NodeNo,
    nodes: NodeNo,
    round: u64,
    fold: &Fold,
)
    requires nodes { 0 < nodes }
    requires room { nodes ≤ outbox.old.room }
    requires papers { HasFoldPapers (fold_bytes fold.now) nodes papers.old }
    ensures list { outbox.new.list ≡ outbox.old.list ++ pieces_in (result_messages me 1 (nodes - 1) round fold.now) }
    ensures room { outbox.new.room + nodes ≡ outbox.old.room + 1 }
    ensures places { length outbox.new.list + outbox.new.room ≡ length outbox.old.list + outbox.old.room }
    ensures papers { HasFoldPapers (fold_bytes fold.now) 1 papers.new }
{
    for node in 1..nodes {
        let paper = papers.take();
        let fold = copy_fold(fold, paper);
        outbox.post(Message {
            sender: me,
            addressee: node,
            kind: Kind::Result { round, fold },
        });
    }
}

/// What is written down of the round's result.
fn result_what(round: u64, kind: CallKind, fold: &Fold, paper: Paper) -> What
    requires { fold_bytes fold.now ≤ paper }
    ensures { result ≡ result_of round kind fold.now }
{
    if matches!(fold, Fold::Mixed) {
        What::Refused {
            kind,
            place: Place::Round(round),
            why: Refusal::Mixed,
        }
    } else {
        What::Came {
            round,
            fold: copy_fold(fold, paper),
        }
    }
}

/// What the node is told of the round.
fn result_answer(round: u64, fold: Fold) -> Answer<Reading, Writing>
    ensures { result ≡ answer_of round fold }
{
    match fold {
        Fold::Mixed => Answer::Refused(Refusal::Mixed),
        fold => Answer::Came { round, fold },
    }
}

/// Writes down what the round gives the node, and answers it. The bytes are written on this paper once, and moved into the
/// answer.
pub(crate) fn conclude(
    journal: &mut Journal,
    at: u64,
    me: NodeNo,
    round: u64,
    kind: CallKind,
    fold: Fold,
    paper: Paper,
) -> Answer<Reading, Writing>
    requires room { 0 < journal.old.record_room }
    requires paper { fold_bytes fold ≤ paper }
    ensures records { journal.new.records ≡ journal.old.records ++ records_of at (entry_of me (result_of round kind fold) ∷ []) }
    ensures room { journal.new.record_room + 1 ≡ journal.old.record_room }
    ensures notes { (journal.new.notes ≡ journal.old.notes) × (journal.new.note_room ≡ journal.old.note_room) }
    ensures answer { result ≡ answer_of round fold }
{
    let what = result_what(round, kind, &fold, paper);
    journal.record(at, Entry { node: me, what });
    result_answer(round, fold)
}
