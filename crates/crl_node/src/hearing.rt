//! A whole message: what it takes, and what the node does with it.
ghost use Rattle.std.specs.Prelude.{◌≡◌, ◌≢◌, ◌<◌, IfOk};
ghost use Rattle.crl_protocol.specs.Handlers.{node_handles};
ghost use Rattle.crl_safety.specs.Safety.{IsSafe, MessageIsSafe};
ghost use Rattle.crl_desk.specs.Desks.{state, acted, HasRoom};
ghost use Rattle.crl_node.specs.Handling.{IsReadyToHear};

use crate::copies::{
    hear_ask, hear_grant, hear_recall, hear_release, hear_return, hear_yield, ready_call_back,
    ready_open,
};
use crate::kits::HandleKit;
use crate::names::{
    hear_purge, ready_to_be_told, ready_to_delete, ready_to_end, ready_to_inform, ready_to_map,
    ready_to_purge,
};
use crate::rounds::{hear_part, hear_result, ready_to_end_round, ready_to_gather};
use crl_desk::Desk;
use crl_model::message::Kind;
use crl_model::{NodeNo, OutOfMemory};
use crl_naming::{take_delete_ask, take_delete_told, take_info, take_info_ask, take_purged};

/// What the message takes.
///
/// # Errors
///
/// `OutOfMemory`.
pub(crate) fn ready_to_hear(
    desk: &mut Desk,
    from: NodeNo,
    kind: &Kind,
) -> Result<HandleKit, OutOfMemory>
    requires room { HasRoom 0 0 0 desk.old }
    requires from { from < desk.old.nodes }
    ensures state { state desk.new ≡ state desk.old }
    ensures kit { IfOk result (λ kit. IsReadyToHear from kind.now kit desk.new) }
    ensures room { HasRoom 0 0 0 desk.new }
{
    match kind {
        Kind::InfoAsk { .. } => ready_to_inform(desk),
        Kind::InfoIs { name, .. } => ready_to_map(desk, *name),
        Kind::Ask { name, .. } => ready_open(desk, *name),
        Kind::Grant { name, .. } => ready_open(desk, *name),
        Kind::Recall { name, .. } => ready_call_back(desk, *name),
        Kind::Return { name, .. } => ready_open(desk, *name),
        Kind::DeleteAsk { .. } => ready_to_delete(desk),
        Kind::DeleteIs { .. } => ready_to_be_told(desk),
        Kind::Purge { name } => ready_to_purge(desk, *name),
        Kind::Purged { .. } => ready_to_end(desk),
        Kind::Come { part, .. } => ready_to_gather(desk, from, part),
        Kind::Result { fold, .. } => ready_to_end_round(desk, fold),
        Kind::Yield { name, .. } => ready_call_back(desk, *name),
        Kind::Release { name, .. } => ready_open(desk, *name),
    }
}

/// The message comes.
#[tactic(auto, unfolding(crl_protocol::specs::Handlers::node_handles))]
pub(crate) fn hear(desk: &mut Desk, at: u64, from: NodeNo, kind: Kind, kit: HandleKit)
    requires ready { IsReadyToHear from kind kit desk.old }
    requires safe { IsSafe (state desk.old) }
    requires from { from < desk.old.nodes }
    requires other { from ≢ desk.old.me }
    requires message { MessageIsSafe (state desk.old) from kind }
    ensures state { state desk.new ≡ acted at (node_handles from kind (state desk.old)) }
    ensures room { HasRoom 0 0 1 desk.new }
{
    match kind {
        Kind::InfoAsk { name } => take_info_ask(desk, at, from, name),
        Kind::InfoIs { name, told } => take_info(desk, at, name, told),
        Kind::Ask { name, write, have } => hear_ask(desk, at, from, name, write, have, kit),
        Kind::Grant {
            name,
            version,
            granted,
        } => hear_grant(desk, at, from, name, version, granted, kit),
        Kind::Recall { name, version } => hear_recall(desk, at, from, name, version, kit),
        Kind::Return {
            name,
            version,
            bytes,
        } => hear_return(desk, at, from, name, version, bytes, kit),
        Kind::DeleteAsk { name } => take_delete_ask(desk, at, from, name),
        Kind::DeleteIs { name, told } => take_delete_told(desk, at, name, told),
        Kind::Purge { name } => hear_purge(desk, at, from, name, kit),
        Kind::Purged { name } => take_purged(desk, at, from, name),
        Kind::Come { round, part } => hear_part(desk, at, from, round, part, kit),
        Kind::Result { round, fold } => hear_result(desk, at, from, round, fold, kit),
        Kind::Yield { name, version } => hear_yield(desk, at, from, name, version, kit),
        Kind::Release {
            name,
            version,
            bytes,
        } => hear_release(desk, at, from, name, version, bytes, kit),
    }
}
