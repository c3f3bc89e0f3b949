//! A node comes to its next round.
ghost use Rattle.std.specs.Prelude.{◌≡◌, ◌≢◌, ◌+◌, ◌<◌, ◌^◌, IfSome, Some};
ghost use Rattle.crl_protocol.specs.Calls.{comes, comes_to, after_own_part, answer_of};
ghost use Rattle.crl_protocol.specs.Gathering.{gathers};
ghost use Rattle.crl_protocol.specs.Node.{Wait};
ghost use Rattle.crl_safety.specs.Safety.{IsSafe};
ghost use Rattle.crl_gathering.specs.Lengths.{fold_bytes};
ghost use Rattle.crl_desk.specs.Desks.{state, acted, HasRoom};
ghost use Rattle.crl_meeting.specs.PapersState.{HasFoldPapers};
ghost use Rattle.crl_meeting.specs.Meetings.{IsComeReady, FoldsHavePapers, FitsPapers, once_entered, once_gathered, once_waiting};

use crate::papers::Papers;
use crate::ready::RoundKit;
use crate::results::{conclude, post_results};
use crl_desk::Desk;
use crl_gathering::copy_part;
use crl_guard::{Reading, Writing};
use crl_model::NodeNo;
use crl_model::activity::{Answer, Awaited};
use crl_model::call::CallKind;
use crl_model::collective::{Fold, Part};
use crl_model::entry::{Entry, What};
use crl_model::message::{Kind, Message};

/// The node comes to its next round with this part. Node 0 gathers it, and is told the result at once if it comes last; each
/// other node sends it to node 0, and waits.
pub fn come(desk: &mut Desk, at: u64, part: Part, kit: RoundKit) -> Answer<Reading, Writing>
    requires ready { IsComeReady part kit desk.old }
    requires safe { IsSafe (state desk.old) }
    ensures state { state desk.new ≡ acted at (comes part (state desk.old)) }
    ensures answer { result ≡ (comes part (state desk.old)).answer }
    ensures room { HasRoom 0 0 1 desk.new }
{
    let RoundKit { part: paper, folds } = kit;
    let copy = copy_part(&part, paper);
    enter(desk, at, copy);
    if desk.me == 0 {
        come_first(desk, at, part, folds)
    } else {
        come_later(desk, at, part)
    }
}

/// The entry with which the node comes to its next round.
fn enter(desk: &mut Desk, at: u64, part: Part)
    requires room { HasRoom desk.old.nodes 2 1 desk.old }
    requires rounds { desk.old.rounds + 1 < 2 ^ 64 }
    ensures state { state desk.new ≡ once_entered at part (state desk.old) }
    ensures same { (desk.new.me ≡ desk.old.me) × (desk.new.nodes ≡ desk.old.nodes) × (desk.new.round ≡ desk.old.round) }
    ensures room { HasRoom desk.new.nodes 1 1 desk.new }
{
    let what = What::Come { part };
    desk.journal.record(
        at,
        Entry {
            node: desk.me,
            what,
        },
    );
    desk.rounds += 1;
}

/// Node 0 has come to its round.
fn come_first(desk: &mut Desk, at: u64, part: Part, folds: Papers) -> Answer<Reading, Writing>
    requires room { HasRoom desk.old.nodes 1 1 desk.old }
    requires first { desk.old.me ≡ 0 }
    requires number { desk.old.round.round + 1 < 2 ^ 64 }
    requires folds { FoldsHavePapers 0 desk.old.nodes part folds desk.old.round }
    ensures state { state desk.new ≡ acted at (comes_to desk.old.rounds part (state desk.old)) }
    ensures answer { result ≡ (comes_to desk.old.rounds part (state desk.old)).answer }
    ensures room { HasRoom 0 0 1 desk.new }
{
    let round = desk.rounds;
    let kind = part.kind();
    match gather(desk, 0, part) {
        None => wait_in(desk, round, kind),
        Some(fold) => tell_all(desk, at, round, kind, fold, folds),
    }
}

/// Another node has come to its round.
fn come_later(desk: &mut Desk, at: u64, part: Part) -> Answer<Reading, Writing>
    requires room { HasRoom desk.old.nodes 1 1 desk.old }
    requires later { desk.old.me ≢ 0 }
    ensures state { state desk.new ≡ acted at (comes_to desk.old.rounds part (state desk.old)) }
    ensures answer { result ≡ (comes_to desk.old.rounds part (state desk.old)).answer }
    ensures room { HasRoom 0 0 1 desk.new }
{
    let round = desk.rounds;
    let kind = part.kind();
    desk.outbox.post(Message {
        sender: desk.me,
        addressee: 0,
        kind: Kind::Come { round, part },
    });
    wait_in(desk, round, kind)
}

/// The node waits in the round.
fn wait_in(desk: &mut Desk, round: u64, kind: CallKind) -> Answer<Reading, Writing>
    requires room { HasRoom 0 0 1 desk.old }
    ensures state { state desk.new ≡ once_waiting round kind (state desk.old) }
    ensures answer { result ≡ Wait }
    ensures room { HasRoom 0 0 1 desk.new }
{
    desk.standing.wait(Awaited::ForRound { round, kind });
    Answer::Wait
}

/// Node 0 gathers the part of a node. With the last one the round gives its fold.
pub(crate) fn gather(desk: &mut Desk, node: NodeNo, part: Part) -> Option<Fold>
    requires room { HasRoom desk.old.nodes 1 1 desk.old }
    requires node { node < desk.old.nodes }
    requires number { desk.old.round.round + 1 < 2 ^ 64 }
    ensures state { state desk.new ≡ once_gathered node part (state desk.old) }
    ensures fold { result ≡ (gathers desk.old.nodes node part (state desk.old).gathering).fold }
    ensures papers { IfSome result (FitsPapers node desk.old.nodes part desk.old.round) }
    ensures nodes { desk.new.nodes ≡ desk.old.nodes }
    ensures room { HasRoom desk.new.nodes 1 1 desk.new }
{
    desk.round.contribute(node, part)
}

/// Node 0 is the last to come to the round, and all nodes are told what it gives.
fn tell_all(
    desk: &mut Desk,
    at: u64,
    round: u64,
    kind: CallKind,
    fold: Fold,
    folds: Papers,
) -> Answer<Reading, Writing>
    requires room { HasRoom desk.old.nodes 1 1 desk.old }
    requires folds { HasFoldPapers (fold_bytes fold) desk.old.nodes folds }
    ensures state { state desk.new ≡ acted at (after_own_part round kind (Some fold) (state desk.old)) }
    ensures answer { result ≡ answer_of round fold }
    ensures room { HasRoom 0 0 1 desk.new }
{
    let mut folds = folds;
    post_results(
        &mut desk.outbox,
        &mut folds,
        desk.me,
        desk.nodes,
        round,
        &fold,
    );
    let paper = folds.take();
    conclude(&mut desk.journal, at, desk.me, round, kind, fold, paper)
}
