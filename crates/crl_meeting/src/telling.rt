//! A part comes to node 0, and a result to another node.
ghost use Rattle.std.specs.Prelude.{◌≡◌, ◌<◌, ◌≤◌, Some, true};
ghost use Rattle.crl_protocol.specs.Gathering.{awaits};
ghost use Rattle.crl_protocol.specs.Handlers.{takes_part, takes_result, after_part_of, own_result};
ghost use Rattle.crl_safety.specs.Safety.{IsSafe};
ghost use Rattle.crl_gathering.specs.Lengths.{fold_bytes};
ghost use Rattle.crl_desk.specs.Desks.{state, acted, HasRoom};
ghost use Rattle.crl_meeting.specs.PapersState.{HasFoldPapers};
ghost use Rattle.crl_meeting.specs.Meetings.{IsPartReady, IsResultReady, once_told};

use crate::coming::gather;
use crate::papers::Papers;
use crate::results::{conclude, post_results};
use crate::waiting::{kind_waiting, round_waited};
use crl_desk::Desk;
use crl_model::NodeNo;
use crl_model::call::CallKind;
use crl_model::collective::{Fold, Part};
use crl_outbox::Paper;

/// The part of a node has come to node 0. With the last one all nodes are told what the round gives.
pub fn take_part(desk: &mut Desk, at: u64, from: NodeNo, part: Part, papers: Papers)
    requires ready { IsPartReady from part papers desk.old }
    requires from { from < desk.old.nodes }
    requires awaited { awaits from (state desk.old).gathering ≡ true }
    requires safe { IsSafe (state desk.old) }
    ensures state { state desk.new ≡ acted at (takes_part from part (state desk.old)) }
    ensures room { HasRoom 0 0 1 desk.new }
{
    let round = desk.round.number();
    if let Some(fold) = gather(desk, from, part) {
        tell_others(desk, at, round, fold, papers);
    }
}

/// What a round gives has come to the node. It is ignored unless the node waits in this very round.
pub fn take_result(desk: &mut Desk, at: u64, round: u64, fold: Fold, paper: Paper)
    requires ready { IsResultReady fold paper desk.old }
    ensures state { state desk.new ≡ acted at (takes_result round fold (state desk.old).activity (state desk.old)) }
    ensures room { HasRoom 0 0 1 desk.new }
{
    if let Some(kind) = kind_waiting(&desk.standing, round) {
        tell(desk, at, round, kind, fold, paper);
    }
}

/// The last part has come to node 0, and all nodes are told what the round gives.
fn tell_others(desk: &mut Desk, at: u64, round: u64, fold: Fold, papers: Papers)
    requires room { HasRoom desk.old.nodes 1 1 desk.old }
    requires papers { HasFoldPapers (fold_bytes fold) desk.old.nodes papers }
    ensures state { state desk.new ≡ acted at (after_part_of round (Some fold) (state desk.old)) }
    ensures room { HasRoom 0 0 1 desk.new }
{
    let mut papers = papers;
    post_results(
        &mut desk.outbox,
        &mut papers,
        desk.me,
        desk.nodes,
        round,
        &fold,
    );
    let paper = papers.take();
    tell_self(desk, at, fold, paper);
}

/// Node 0 is told what the round gives in which it waits.
fn tell_self(desk: &mut Desk, at: u64, fold: Fold, paper: Paper)
    requires room { HasRoom 0 1 1 desk.old }
    requires paper { fold_bytes fold ≤ paper }
    ensures state { state desk.new ≡ acted at (own_result fold (state desk.old).activity (state desk.old)) }
    ensures room { HasRoom 0 0 1 desk.new }
{
    if let Some(waited) = round_waited(&desk.standing) {
        tell(desk, at, waited.round, waited.kind, fold, paper);
    }
}

/// The node is told what the round gives, and ready with it.
fn tell(desk: &mut Desk, at: u64, round: u64, kind: CallKind, fold: Fold, paper: Paper)
    requires room { HasRoom 0 1 1 desk.old }
    requires paper { fold_bytes fold ≤ paper }
    ensures state { state desk.new ≡ once_told at round kind fold (state desk.old) }
    ensures room { HasRoom 0 0 1 desk.new }
{
    let answer = conclude(&mut desk.journal, at, desk.me, round, kind, fold, paper);
    desk.standing.ready(answer);
}
