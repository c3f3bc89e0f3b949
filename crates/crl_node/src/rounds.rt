//! Messages about rounds of collective calls.
ghost use Rattle.std.specs.Prelude.{◌≡◌, ◌<◌, true, IfOk};
ghost use Rattle.crl_model.specs.declared.message.Kind.TheVariants as kind;
ghost use Rattle.crl_protocol.specs.Gathering.{awaits};
ghost use Rattle.crl_protocol.specs.Handlers.{node_handles};
ghost use Rattle.crl_safety.specs.Safety.{IsSafe};
ghost use Rattle.crl_desk.specs.Desks.{state, acted, HasRoom};
ghost use Rattle.crl_node.specs.Handling.{GathersWith, EndsRoundWith};

use crate::kits::HandleKit;
use crl_desk::Desk;
use crl_meeting::{ready_part, ready_result, take_part, take_result};
use crl_model::collective::{Fold, Part};
use crl_model::{NodeNo, OutOfMemory};

/// What a part of a round takes.
///
/// # Errors
///
/// `OutOfMemory`.
pub(crate) fn ready_to_gather(
    desk: &mut Desk,
    from: NodeNo,
    part: &Part,
) -> Result<HandleKit, OutOfMemory>
    requires room { HasRoom 0 0 0 desk.old }
    requires from { from < desk.old.nodes }
    ensures state { state desk.new ≡ state desk.old }
    ensures kit { IfOk result (λ kit. GathersWith from part.now kit desk.new) }
    ensures room { HasRoom 0 0 0 desk.new }
{
    let papers = ready_part(desk, from, part)?;
    Ok(HandleKit::Papers(papers))
}

/// What a result of a round takes.
///
/// # Errors
///
/// `OutOfMemory`.
pub(crate) fn ready_to_end_round(desk: &mut Desk, fold: &Fold) -> Result<HandleKit, OutOfMemory>
    requires room { HasRoom 0 0 0 desk.old }
    ensures state { state desk.new ≡ state desk.old }
    ensures kit { IfOk result (λ kit. EndsRoundWith fold.now kit desk.new) }
    ensures room { HasRoom 0 0 0 desk.new }
{
    let paper = ready_result(desk, fold)?;
    Ok(HandleKit::Paper(paper))
}

/// A node comes to the round that this one gathers.
#[tactic(auto, unfolding(crl_protocol::specs::Handlers::node_handles))]
pub(crate) fn hear_part(
    desk: &mut Desk,
    at: u64,
    from: NodeNo,
    round: u64,
    part: Part,
    kit: HandleKit,
)
    requires ready { GathersWith from part kit desk.old }
    requires from { from < desk.old.nodes }
    requires awaited { awaits from (state desk.old).gathering ≡ true }
    requires safe { IsSafe (state desk.old) }
    ensures state { state desk.new ≡ acted at (node_handles from (kind.Come round part) (state desk.old)) }
    ensures room { HasRoom 0 0 1 desk.new }
{
    match kit {
        HandleKit::Papers(papers) => take_part(desk, at, from, part, papers),
        _ => unreachable!(),
    }
}

/// The round is over.
#[tactic(auto, unfolding(crl_protocol::specs::Handlers::node_handles))]
pub(crate) fn hear_result(
    desk: &mut Desk,
    at: u64,
    from: NodeNo,
    round: u64,
    fold: Fold,
    kit: HandleKit,
)
    requires ready { EndsRoundWith fold kit desk.old }
    ensures state { state desk.new ≡ acted at (node_handles from (kind.Result round fold) (state desk.old)) }
    ensures room { HasRoom 0 0 1 desk.new }
{
    match kit {
        HandleKit::Paper(paper) => take_result(desk, at, round, fold, paper),
        _ => unreachable!(),
    }
}
