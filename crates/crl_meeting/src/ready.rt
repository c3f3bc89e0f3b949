//! What the acts about rounds use up.
ghost use Rattle.std.specs.Prelude.{◌≡◌, ◌<◌, IfOk, OnOk};
ghost use Rattle.crl_desk.specs.Desks.{state, HasRoom};
ghost use Rattle.crl_meeting.specs.Meetings.{FoldsHavePapers, IsComeReady, IsPartReady, IsResultReady};

use crate::papers::Papers;
use crl_desk::Desk;
use crl_gathering::{fold_len, part_len};
use crl_model::collective::{Fold, Part};
use crl_model::{NodeNo, OutOfMemory};
use crl_outbox::Paper;

/// Paper for a node that comes to a round: for the bytes of its part in its entry, and, if node 0 comes last, for those of the
/// round's result, one for each node.
#[derive(Drop)]
pub struct RoundKit {
    pub part: Paper,
    pub folds: Papers,
}

/// What `come` uses up with this part.
///
/// # Errors
///
/// `OutOfMemory`.
pub fn ready_come(desk: &mut Desk, part: &Part) -> Result<RoundKit, OutOfMemory>
    requires room { HasRoom 0 0 0 desk.old }
    ensures state { state desk.new ≡ state desk.old }
    ensures ready { IfOk result (λ kit. IsComeReady part.now kit desk.new) }
    ensures room { HasRoom 0 0 0 desk.new }
{
    make_round_room(desk, 2)?;
    let folds = fold_papers(desk, desk.me, part)?;
    let part = Paper::new(desk.alloc, part_len(part))?;
    Ok(RoundKit { part, folds })
}

/// What `take_part` uses up with this part of a node.
///
/// # Errors
///
/// `OutOfMemory`.
pub fn ready_part(desk: &mut Desk, from: NodeNo, part: &Part) -> Result<Papers, OutOfMemory>
    requires room { HasRoom 0 0 0 desk.old }
    requires from { from < desk.old.nodes }
    ensures state { state desk.new ≡ state desk.old }
    ensures ready { IfOk result (λ papers. IsPartReady from part.now papers desk.new) }
    ensures room { HasRoom 0 0 0 desk.new }
{
    make_round_room(desk, 1)?;
    fold_papers(desk, from, part)
}

/// What `take_result` uses up with this result: paper for its bytes in the node's entry.
///
/// # Errors
///
/// `OutOfMemory`.
pub fn ready_result(desk: &mut Desk, fold: &Fold) -> Result<Paper, OutOfMemory>
    requires room { HasRoom 0 0 0 desk.old }
    ensures state { state desk.new ≡ state desk.old }
    ensures ready { IfOk result (λ paper. IsResultReady fold.now paper desk.new) }
    ensures room { HasRoom 0 0 0 desk.new }
{
    desk.make_room(0, 1, 1)?;
    Paper::new(desk.alloc, fold_len(fold))
}

/// Room for a message to each node, for so many entries, and for a note.
#[tactic(auto, using(crate::proofs::Rooms::same_nodes))]
fn make_round_room(desk: &mut Desk, records: usize) -> Result<(), OutOfMemory>
    requires room { HasRoom 0 0 0 desk.old }
    ensures state { state desk.new ≡ state desk.old }
    ensures nodes { desk.new.nodes ≡ desk.old.nodes }
    ensures ok { OnOk result (HasRoom desk.new.nodes records 1 desk.new) }
    ensures room { HasRoom 0 0 0 desk.new }
{
    desk.make_room(desk.nodes as usize, records, 1)
}

/// Papers for what the round gives, if it gives it with this part of the node: one for each node.
fn fold_papers(desk: &Desk, node: NodeNo, part: &Part) -> Result<Papers, OutOfMemory>
    requires { node < desk.now.round.nodes }
    ensures { IfOk result (λ papers. FoldsHavePapers node desk.now.nodes part.now papers desk.now.round) }
{
    if desk.round.is_last(node) {
        let size = desk.round.broadcast_len().max(part_len(part));
        Papers::new(desk.alloc, size, desk.nodes as usize)
    } else {
        Papers::new(desk.alloc, 0, 0)
    }
}
