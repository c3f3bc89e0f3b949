//! What a node does with a call, before the call is noted: what it takes is readied, and then it is done.
ghost use Rattle.std.specs.Prelude.{◌≡◌, ◌+◌, ◌<◌, ◌^◌, true, None, Some, IfOk};
ghost use Rattle.crl_model.specs.declared.call.Call.TheVariants as call;
ghost use Rattle.crl_protocol.specs.Verdict as verdict;
ghost use Rattle.crl_protocol.specs.World.{is_free};
ghost use Rattle.crl_safety.specs.Safety.{IsSafe};
ghost use Rattle.crl_desk.specs.Desks.{state, HasRoom};
ghost use Rattle.crl_naming.specs.Readied.{RefuseIsReady, MapIsReady};
ghost use Rattle.crl_sectioning.specs.Starts.{start_call};
ghost use Rattle.crl_node.specs.Calling.{TakesWith, CreatesWith, StartsWith, UnmapsWith, FlushesWith, ComesWith};
ghost use Rattle.crl_node.specs.Nodes.{ActIsDone};

use crate::kits::TakenKit;
use crl_desk::Desk;
use crl_guard::{Reading, Writing};
use crl_model::OutOfMemory;
use crl_model::activity::Answer;
use crl_model::call::{Call, Refusal};
use crl_model::collective::Part;
use crl_model::name::Name;

/// What a call answers, and the call as it is to be noted.
pub(crate) struct Acted {
    pub(crate) answer: Answer<Reading, Writing>,
    pub(crate) noted: Call,
}

/// What a call takes that isn't refused. The end of a section goes by its guard, and takes nothing.
pub(crate) fn ready_taken(desk: &mut Desk, call: &Call) -> Result<TakenKit, OutOfMemory>
    requires room { HasRoom 0 0 0 desk.old }
    ensures state { state desk.new ≡ state desk.old }
    ensures kit { IfOk result (λ kit. TakesWith call.now kit desk.new) }
    ensures room { HasRoom 0 0 0 desk.new }
{
    match call {
        Call::Create { size } => ready_create(desk, *size),
        Call::Delete { .. } => ready_delete(desk),
        Call::Map { name } => ready_map(desk, *name),
        Call::Unmap { name } => ready_unmap(desk, *name),
        Call::StartRead { name } => ready_start(desk, *name),
        Call::StartWrite { name } => ready_start(desk, *name),
        Call::Flush { name } => ready_flush(desk, *name),
        Call::Come { part } => ready_come(desk, part),
        _ => Err(OutOfMemory),
    }
}

fn ready_create(desk: &mut Desk, size: u32) -> Result<TakenKit, OutOfMemory>
    requires room { HasRoom 0 0 0 desk.old }
    ensures state { state desk.new ≡ state desk.old }
    ensures kit { IfOk result (λ kit. CreatesWith size kit desk.new) }
    ensures room { HasRoom 0 0 0 desk.new }
{
    let home = crl_naming::ready_create(desk, size)?;
    Ok(TakenKit::Create(home))
}

fn ready_delete(desk: &mut Desk) -> Result<TakenKit, OutOfMemory>
    requires room { HasRoom 0 0 0 desk.old }
    ensures state { state desk.new ≡ state desk.old }
    ensures kit { IfOk result (λ kit. HasRoom 64 2 1 desk.new) }
    ensures room { HasRoom 0 0 0 desk.new }
{
    crl_naming::ready_delete(desk)?;
    Ok(TakenKit::Room)
}

fn ready_map(desk: &mut Desk, name: Name) -> Result<TakenKit, OutOfMemory>
    requires room { HasRoom 0 0 0 desk.old }
    ensures state { state desk.new ≡ state desk.old }
    ensures kit { IfOk result (λ kit. MapIsReady name desk.new) }
    ensures room { HasRoom 0 0 0 desk.new }
{
    crl_naming::ready_map(desk, name)?;
    Ok(TakenKit::Room)
}

fn ready_unmap(desk: &mut Desk, name: Name) -> Result<TakenKit, OutOfMemory>
    requires room { HasRoom 0 0 0 desk.old }
    ensures state { state desk.new ≡ state desk.old }
    ensures kit { IfOk result (λ kit. UnmapsWith name kit desk.new) }
    ensures room { HasRoom 0 0 0 desk.new }
{
    let sheets = crl_naming::ready_unmap(desk, name)?;
    Ok(TakenKit::Sheets(sheets))
}

fn ready_flush(desk: &mut Desk, name: Name) -> Result<TakenKit, OutOfMemory>
    requires room { HasRoom 0 0 0 desk.old }
    ensures state { state desk.new ≡ state desk.old }
    ensures kit { IfOk result (λ kit. FlushesWith name kit desk.new) }
    ensures room { HasRoom 0 0 0 desk.new }
{
    let sheets = crl_sectioning::ready_flush(desk, name)?;
    Ok(TakenKit::Sheets(sheets))
}

fn ready_start(desk: &mut Desk, name: Name) -> Result<TakenKit, OutOfMemory>
    requires room { HasRoom 0 0 0 desk.old }
    ensures state { state desk.new ≡ state desk.old }
    ensures kit { IfOk result (λ kit. StartsWith name kit desk.new) }
    ensures room { HasRoom 0 0 0 desk.new }
{
    let kit = desk.ready_section(name)?;
    Ok(TakenKit::Section(kit))
}

fn ready_come(desk: &mut Desk, part: &Part) -> Result<TakenKit, OutOfMemory>
    requires room { HasRoom 0 0 0 desk.old }
    ensures state { state desk.new ≡ state desk.old }
    ensures kit { IfOk result (λ kit. ComesWith part.now kit desk.new) }
    ensures room { HasRoom 0 0 0 desk.new }
{
    let noted = part.copy(desk.alloc)?;
    let kit = crl_meeting::ready_come(desk, part)?;
    Ok(TakenKit::Come { noted, kit })
}

/// A call that is refused.
#[tactic(auto, unfolding(crl_protocol::specs::Calls::node_calls))]
pub(crate) fn act_refused(desk: &mut Desk, at: u64, call: Call, why: Refusal) -> Acted
    requires ready { RefuseIsReady call desk.old }
    requires safe { IsSafe (state desk.old) }
    requires refused { verdict.verdict (state desk.old) call ≡ Some why }
    ensures { ActIsDone at call (state desk.old) desk.new result }
{
    let answer = crl_naming::refuse(desk, at, &call, why);
    let noted = call;
    Acted { answer, noted }
}

/// A create.
#[tactic(auto, unfolding(crl_protocol::specs::Calls::takes_call))]
fn act_create(desk: &mut Desk, at: u64, size: u32, kit: TakenKit) -> Acted
    requires ready { CreatesWith size kit desk.old }
    requires allowed { verdict.verdict (state desk.old) (call.Create size) ≡ None }
    ensures { ActIsDone at (call.Create size) (state desk.old) desk.new result }
{
    match kit {
        TakenKit::Create(home) => {
            let answer = crl_naming::create(desk, at, size, home);
            let noted = Call::Create { size };
            Acted { answer, noted }
        }
        _ => unreachable!(),
    }
}

/// A delete.
#[tactic(auto, unfolding(crl_protocol::specs::Calls::takes_call))]
fn act_delete(desk: &mut Desk, at: u64, name: Name) -> Acted
    requires ready { HasRoom 64 2 1 desk.old }
    requires allowed { verdict.verdict (state desk.old) (call.Delete name) ≡ None }
    ensures { ActIsDone at (call.Delete name) (state desk.old) desk.new result }
{
    let answer = crl_naming::delete(desk, at, name);
    let noted = Call::Delete { name };
    Acted { answer, noted }
}

/// A map.
#[tactic(auto, unfolding(crl_protocol::specs::Calls::takes_call))]
fn act_map(desk: &mut Desk, at: u64, name: Name) -> Acted
    requires ready { MapIsReady name desk.old }
    requires allowed { verdict.verdict (state desk.old) (call.Map name) ≡ None }
    ensures { ActIsDone at (call.Map name) (state desk.old) desk.new result }
{
    let answer = crl_naming::map(desk, at, name);
    let noted = Call::Map { name };
    Acted { answer, noted }
}

/// An unmap.
#[tactic(auto, unfolding(crl_protocol::specs::Calls::takes_call))]
fn act_unmap(desk: &mut Desk, at: u64, name: Name, kit: TakenKit) -> Acted
    requires ready { UnmapsWith name kit desk.old }
    requires allowed { verdict.verdict (state desk.old) (call.Unmap name) ≡ None }
    ensures { ActIsDone at (call.Unmap name) (state desk.old) desk.new result }
{
    match kit {
        TakenKit::Sheets(sheets) => {
            let answer = crl_naming::unmap(desk, at, name, sheets);
            let noted = Call::Unmap { name };
            Acted { answer, noted }
        }
        _ => unreachable!(),
    }
}

/// A flush.
#[tactic(auto, unfolding(crl_protocol::specs::Calls::takes_call))]
fn act_flush(desk: &mut Desk, at: u64, name: Name, kit: TakenKit) -> Acted
    requires ready { FlushesWith name kit desk.old }
    requires allowed { verdict.verdict (state desk.old) (call.Flush name) ≡ None }
    ensures { ActIsDone at (call.Flush name) (state desk.old) desk.new result }
{
    match kit {
        TakenKit::Sheets(sheets) => {
            let answer = crl_sectioning::flush(desk, at, name, sheets);
            let noted = Call::Flush { name };
            Acted { answer, noted }
        }
        _ => unreachable!(),
    }
}

/// The call that starts a section.
fn call_to_start(write: bool, name: Name) -> Call
    ensures { result ≡ start_call write name }
{
    if write {
        Call::StartWrite { name }
    } else {
        Call::StartRead { name }
    }
}

/// The start of a section.
fn act_start(desk: &mut Desk, at: u64, name: Name, write: bool, kit: TakenKit) -> Acted
    requires ready { StartsWith name kit desk.old }
    requires safe { IsSafe (state desk.old) }
    requires free { is_free (state desk.old).activity ≡ true }
    requires allowed { verdict.verdict (state desk.old) (start_call write name) ≡ None }
    ensures { ActIsDone at (start_call write name) (state desk.old) desk.new result }
{
    match kit {
        TakenKit::Section(kit) => {
            let answer = crl_sectioning::start(desk, at, name, write, kit);
            let noted = call_to_start(write, name);
            Acted { answer, noted }
        }
        _ => unreachable!(),
    }
}

/// A collective call.
fn act_come(desk: &mut Desk, at: u64, part: Part, kit: TakenKit) -> Acted
    requires ready { ComesWith part kit desk.old }
    requires safe { IsSafe (state desk.old) }
    requires allowed { verdict.verdict (state desk.old) (call.Come part) ≡ None }
    ensures { ActIsDone at (call.Come part) (state desk.old) desk.new result }
{
    match kit {
        TakenKit::Come { noted, kit } => {
            let answer = crl_meeting::come(desk, at, part, kit);
            let noted = Call::Come { part: noted };
            Acted { answer, noted }
        }
        _ => unreachable!(),
    }
}

/// A call that isn't refused, and isn't the end of a section.
pub(crate) fn act_taken(desk: &mut Desk, at: u64, call: Call, kit: TakenKit) -> Acted
    requires ready { TakesWith call kit desk.old }
    requires safe { IsSafe (state desk.old) }
    requires free { is_free (state desk.old).activity ≡ true }
    requires allowed { verdict.verdict (state desk.old) call ≡ None }
    ensures { ActIsDone at call (state desk.old) desk.new result }
{
    match call {
        Call::Create { size } => act_create(desk, at, size, kit),
        Call::Delete { name } => act_delete(desk, at, name),
        Call::Map { name } => act_map(desk, at, name),
        Call::Unmap { name } => act_unmap(desk, at, name, kit),
        Call::StartRead { name } => act_start(desk, at, name, false, kit),
        Call::StartWrite { name } => act_start(desk, at, name, true, kit),
        Call::Flush { name } => act_flush(desk, at, name, kit),
        Call::Come { part } => act_come(desk, at, part, kit),
        _ => unreachable!(),
    }
}
