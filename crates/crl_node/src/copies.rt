//! Messages about copies of a region.
ghost use Rattle.std.specs.Prelude.{◌≡◌, ◌≢◌, ◌<◌, IfOk};
ghost use Rattle.crl_model.specs.declared.message.Kind.TheVariants as kind;
ghost use Rattle.crl_protocol.specs.Handlers.{node_handles};
ghost use Rattle.crl_safety.specs.Safety.{IsSafe};
ghost use Rattle.crl_safety.specs.Tests.{MeetsTest};
ghost use Rattle.crl_desk.specs.Desks.{state, acted, HasRoom};
ghost use Rattle.crl_node.specs.Handling.{OpensWith, GoesBackWith};

use crate::kits::HandleKit;
use crl_copying::{
    ready_recall, take_ask, take_grant, take_recall, take_release, take_return, take_yield,
};
use crl_desk::Desk;
use crl_model::bytes::Bytes;
use crl_model::message::Granted;
use crl_model::name::Name;
use crl_model::{NodeNo, OutOfMemory};

/// What a message takes with which a section of the region may open.
///
/// # Errors
///
/// `OutOfMemory`.
pub(crate) fn ready_open(desk: &mut Desk, name: Name) -> Result<HandleKit, OutOfMemory>
    requires room { HasRoom 0 0 0 desk.old }
    ensures state { state desk.new ≡ state desk.old }
    ensures kit { IfOk result (λ kit. OpensWith name kit desk.new) }
    ensures room { HasRoom 0 0 0 desk.new }
{
    let kit = desk.ready_section(name)?;
    Ok(HandleKit::Section(kit))
}

/// What a recall or a yield takes.
///
/// # Errors
///
/// `OutOfMemory`.
pub(crate) fn ready_call_back(desk: &mut Desk, name: Name) -> Result<HandleKit, OutOfMemory>
    requires room { HasRoom 0 0 0 desk.old }
    ensures state { state desk.new ≡ state desk.old }
    ensures kit { IfOk result (λ kit. GoesBackWith name kit desk.new) }
    ensures room { HasRoom 0 0 0 desk.new }
{
    let sheets = ready_recall(desk, name)?;
    Ok(HandleKit::Sheets(sheets))
}

/// An ask comes.
pub(crate) fn hear_ask(
    desk: &mut Desk,
    at: u64,
    from: NodeNo,
    name: Name,
    write: bool,
    have: u64,
    kit: HandleKit,
)
    requires ready { OpensWith name kit desk.old }
    requires safe { IsSafe (state desk.old) }
    requires from { from < desk.old.nodes }
    requires other { from ≢ desk.old.me }
    requires meets { MeetsTest (state desk.old) from (kind.Ask name write have) }
    ensures state { state desk.new ≡ acted at (node_handles from (kind.Ask name write have) (state desk.old)) }
    ensures room { HasRoom 0 0 1 desk.new }
{
    match kit {
        HandleKit::Section(kit) => take_ask(desk, at, from, name, write, have, kit),
        _ => unreachable!(),
    }
}

/// A grant comes.
pub(crate) fn hear_grant(
    desk: &mut Desk,
    at: u64,
    from: NodeNo,
    name: Name,
    version: u64,
    granted: Granted,
    kit: HandleKit,
)
    requires ready { OpensWith name kit desk.old }
    requires safe { IsSafe (state desk.old) }
    requires meets { MeetsTest (state desk.old) from (kind.Grant name version granted) }
    ensures state { state desk.new ≡ acted at (node_handles from (kind.Grant name version granted) (state desk.old)) }
    ensures room { HasRoom 0 0 1 desk.new }
{
    match kit {
        HandleKit::Section(kit) => take_grant(desk, at, from, name, version, granted, kit),
        _ => unreachable!(),
    }
}

/// A copy comes back.
pub(crate) fn hear_return(
    desk: &mut Desk,
    at: u64,
    from: NodeNo,
    name: Name,
    version: u64,
    bytes: Option<Bytes>,
    kit: HandleKit,
)
    requires ready { OpensWith name kit desk.old }
    requires safe { IsSafe (state desk.old) }
    requires from { from < desk.old.nodes }
    requires meets { MeetsTest (state desk.old) from (kind.Return name version bytes) }
    ensures state { state desk.new ≡ acted at (node_handles from (kind.Return name version bytes) (state desk.old)) }
    ensures room { HasRoom 0 0 1 desk.new }
{
    match kit {
        HandleKit::Section(kit) => take_return(desk, at, from, name, version, bytes, kit),
        _ => unreachable!(),
    }
}

/// An exclusive copy has become a shared one.
pub(crate) fn hear_release(
    desk: &mut Desk,
    at: u64,
    from: NodeNo,
    name: Name,
    version: u64,
    bytes: Bytes,
    kit: HandleKit,
)
    requires ready { OpensWith name kit desk.old }
    requires safe { IsSafe (state desk.old) }
    requires from { from < desk.old.nodes }
    requires meets { MeetsTest (state desk.old) from (kind.Release name version bytes) }
    ensures state { state desk.new ≡ acted at (node_handles from (kind.Release name version bytes) (state desk.old)) }
    ensures room { HasRoom 0 0 1 desk.new }
{
    match kit {
        HandleKit::Section(kit) => take_release(desk, at, from, name, version, bytes, kit),
        _ => unreachable!(),
    }
}

/// The home wants a copy back.
pub(crate) fn hear_recall(
    desk: &mut Desk,
    at: u64,
    from: NodeNo,
    name: Name,
    version: u64,
    kit: HandleKit,
)
    requires ready { GoesBackWith name kit desk.old }
    ensures state { state desk.new ≡ acted at (node_handles from (kind.Recall name version) (state desk.old)) }
    ensures room { HasRoom 0 0 1 desk.new }
{
    match kit {
        HandleKit::Sheets(sheets) => take_recall(desk, at, from, name, version, sheets),
        _ => unreachable!(),
    }
}

/// The home wants an exclusive copy to become a shared one.
pub(crate) fn hear_yield(
    desk: &mut Desk,
    at: u64,
    from: NodeNo,
    name: Name,
    version: u64,
    kit: HandleKit,
)
    requires ready { GoesBackWith name kit desk.old }
    ensures state { state desk.new ≡ acted at (node_handles from (kind.Yield name version) (state desk.old)) }
    ensures room { HasRoom 0 0 1 desk.new }
{
    match kit {
        HandleKit::Sheets(sheets) => take_yield(desk, at, from, name, version, sheets),
        _ => unreachable!(),
    }
}
