//! Messages about names.
ghost use Rattle.std.specs.Prelude.{◌≡◌, IfOk, OnOk};
ghost use Rattle.crl_model.specs.declared.message.Kind.TheVariants as kind;
ghost use Rattle.crl_protocol.specs.Handlers.{node_handles};
ghost use Rattle.crl_desk.specs.Desks.{state, acted, HasRoom};
ghost use Rattle.crl_naming.specs.Readied.{InfoIsReady};
ghost use Rattle.crl_node.specs.Handling.{PurgesWith};

use crate::kits::HandleKit;
use crl_desk::Desk;
use crl_model::name::Name;
use crl_model::{NodeNo, OutOfMemory};
use crl_naming::{
    ready_delete, ready_delete_told, ready_info, ready_info_ask, ready_purge, ready_purged,
    take_purge,
};

/// What a purge takes.
///
/// # Errors
///
/// `OutOfMemory`.
pub(crate) fn ready_to_purge(desk: &mut Desk, name: Name) -> Result<HandleKit, OutOfMemory>
    requires room { HasRoom 0 0 0 desk.old }
    ensures state { state desk.new ≡ state desk.old }
    ensures kit { IfOk result (λ kit. PurgesWith name kit desk.new) }
    ensures room { HasRoom 0 0 0 desk.new }
{
    let sheets = ready_purge(desk, name)?;
    Ok(HandleKit::Sheets(sheets))
}

/// What an answer to a map takes.
///
/// # Errors
///
/// `OutOfMemory`.
pub(crate) fn ready_to_map(desk: &mut Desk, name: Name) -> Result<HandleKit, OutOfMemory>
    requires room { HasRoom 0 0 0 desk.old }
    ensures state { state desk.new ≡ state desk.old }
    ensures kit { OnOk result (InfoIsReady name desk.new) }
    ensures room { HasRoom 0 0 0 desk.new }
{
    ready_info(desk, name)?;
    Ok(HandleKit::Room)
}

/// What the question of a node that maps takes.
///
/// # Errors
///
/// `OutOfMemory`.
pub(crate) fn ready_to_inform(desk: &mut Desk) -> Result<HandleKit, OutOfMemory>
    requires room { HasRoom 0 0 0 desk.old }
    ensures state { state desk.new ≡ state desk.old }
    ensures kit { OnOk result (HasRoom 1 1 1 desk.new) }
    ensures room { HasRoom 0 0 0 desk.new }
{
    ready_info_ask(desk)?;
    Ok(HandleKit::Room)
}

/// What a delete of another node takes.
///
/// # Errors
///
/// `OutOfMemory`.
pub(crate) fn ready_to_delete(desk: &mut Desk) -> Result<HandleKit, OutOfMemory>
    requires room { HasRoom 0 0 0 desk.old }
    ensures state { state desk.new ≡ state desk.old }
    ensures kit { OnOk result (HasRoom 64 2 1 desk.new) }
    ensures room { HasRoom 0 0 0 desk.new }
{
    ready_delete(desk)?;
    Ok(HandleKit::Room)
}

/// What an answer to a delete takes.
///
/// # Errors
///
/// `OutOfMemory`.
pub(crate) fn ready_to_be_told(desk: &mut Desk) -> Result<HandleKit, OutOfMemory>
    requires room { HasRoom 0 0 0 desk.old }
    ensures state { state desk.new ≡ state desk.old }
    ensures kit { OnOk result (HasRoom 0 0 1 desk.new) }
    ensures room { HasRoom 0 0 0 desk.new }
{
    ready_delete_told(desk)?;
    Ok(HandleKit::Room)
}

/// What an answer to a purge takes.
///
/// # Errors
///
/// `OutOfMemory`.
pub(crate) fn ready_to_end(desk: &mut Desk) -> Result<HandleKit, OutOfMemory>
    requires room { HasRoom 0 0 0 desk.old }
    ensures state { state desk.new ≡ state desk.old }
    ensures kit { OnOk result (HasRoom 1 1 1 desk.new) }
    ensures room { HasRoom 0 0 0 desk.new }
{
    ready_purged(desk)?;
    Ok(HandleKit::Room)
}

/// The home deletes a region.
#[tactic(auto, unfolding(crl_protocol::specs::Handlers::node_handles))]
pub(crate) fn hear_purge(desk: &mut Desk, at: u64, from: NodeNo, name: Name, kit: HandleKit)
    requires ready { PurgesWith name kit desk.old }
    ensures state { state desk.new ≡ acted at (node_handles from (kind.Purge name) (state desk.old)) }
    ensures room { HasRoom 0 0 1 desk.new }
{
    match kit {
        HandleKit::Sheets(sheets) => take_purge(desk, at, from, name, sheets),
        _ => unreachable!(),
    }
}
