//! The verdict of a node.
ghost use Rattle.std.specs.Prelude.{◌≡◌};
ghost use Rattle.crl_protocol.specs.Verdict as reasons;
ghost use Rattle.crl_protocol.specs.Node as node;
ghost use Rattle.crl_desk.specs.Desks.{state};

use crate::reasons::{
    COUNT_LIMIT, by_stage, of_end, of_more, of_open, of_part, of_start, refuse_if,
};
use crl_desk::Desk;
use crl_model::REGION_LIMIT;
use crl_model::call::{Call, Refusal};
use crl_model::name::Name;

/// The first reason for which the node refuses the call, if there is one.
#[tactic(auto, unfolding(crl_protocol::specs::Verdict::verdict))]
pub fn verdict(desk: &Desk, call: &Call) -> Option<Refusal>
    ensures { result ≡ reasons.verdict (state desk.now) call.now }
{
    match call {
        Call::Create { size } => of_create(desk, *size),
        Call::Delete { name } => of_delete(desk, *name),
        Call::Map { name } => of_map(desk, *name),
        Call::Unmap { name } | Call::Flush { name } => {
            of_unmapped(desk, *name).or(of_open(desk.sections.section(*name)))
        }
        Call::StartRead { name } => {
            of_unmapped(desk, *name).or(of_start(false, desk.sections.section(*name)))
        }
        Call::StartWrite { name } => {
            of_unmapped(desk, *name).or(of_start(true, desk.sections.section(*name)))
        }
        Call::EndRead { name } => {
            of_unmapped(desk, *name).or(of_end(false, desk.sections.section(*name)))
        }
        Call::EndWrite { name, after: _ } => {
            of_unmapped(desk, *name).or(of_end(true, desk.sections.section(*name)))
        }
        Call::Put { name, offset, len } => {
            of_unmapped(desk, *name).or(of_change(desk, *name, *offset, *len))
        }
        Call::Add { name, offset } => {
            of_unmapped(desk, *name).or(of_change(desk, *name, *offset, 8))
        }
        Call::Come { part } => of_part(part),
    }
}

/// The number of maps that the node has of the region.
fn map_count(desk: &Desk, name: Name) -> u32
    ensures { result ≡ node.map_count ((state desk.now).maps name) }
{
    match desk.maps.get(&name) {
        Some(mapping) => mapping.count,
        None => 0,
    }
}

/// The size of a region that is mapped here, else 0.
fn mapped_size(desk: &Desk, name: Name) -> u32
    ensures { result ≡ reasons.mapped_size ((state desk.now).maps name) }
{
    match desk.maps.get(&name) {
        Some(mapping) => mapping.size,
        None => 0,
    }
}

/// Whether the name is one that a node gave or may give.
fn is_real(desk: &Desk, name: Name) -> bool
    ensures { result ≡ node.is_real (state desk.now) name }
{
    name.home < desk.nodes && name.serial != 0
}

/// Of a create of a region of this size.
fn of_create(desk: &Desk, size: u32) -> Option<Refusal>
    ensures { result ≡ reasons.of_create (state desk.now) size }
{
    refuse_if(size == 0 || size > REGION_LIMIT, Refusal::BadSize).or(refuse_if(
        desk.homes.serial() == COUNT_LIMIT,
        Refusal::NamesSpent,
    ))
}

/// Of a delete.
fn of_delete(desk: &Desk, name: Name) -> Option<Refusal>
    ensures { result ≡ reasons.of_delete (state desk.now) name }
{
    if name.home == desk.me {
        by_stage(desk.stages.stage(name.serial))
    } else {
        refuse_if(!is_real(desk, name), Refusal::Unknown)
    }
}

/// Of a map.
fn of_map(desk: &Desk, name: Name) -> Option<Refusal>
    ensures { result ≡ reasons.of_map (state desk.now) name }
{
    if name.home == desk.me {
        by_stage(desk.stages.stage(name.serial)).or(of_more(map_count(desk, name)))
    } else {
        of_map_elsewhere(desk, name)
    }
}

/// Of a map of another home's region.
fn of_map_elsewhere(desk: &Desk, name: Name) -> Option<Refusal>
    ensures { result ≡ reasons.of_mapped (state desk.now) name ((state desk.now).maps name) }
{
    match desk.maps.get(&name) {
        Some(mapping) => refuse_if(mapping.doomed, Refusal::Deleted).or(of_more(mapping.count)),
        None => refuse_if(
            desk.cache.size_of(name).is_none() && !is_real(desk, name),
            Refusal::Unknown,
        ),
    }
}

/// Of a call about a region that has to be mapped here.
fn of_unmapped(desk: &Desk, name: Name) -> Option<Refusal>
    ensures { result ≡ reasons.of_unmapped (state desk.now) name }
{
    refuse_if(map_count(desk, name) == 0, Refusal::NotMapped)
}

/// Of a change of so many bytes from the offset on.
fn of_change(desk: &Desk, name: Name, offset: u32, len: u32) -> Option<Refusal>
    ensures { result ≡ reasons.of_change (state desk.now) name offset len }
{
    of_end(true, desk.sections.section(name)).or(refuse_if(
        (mapped_size(desk, name) as u64) < offset as u64 + len as u64,
        Refusal::OutOfRange,
    ))
}
