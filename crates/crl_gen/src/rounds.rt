//! The statements of regions and rounds.
ghost use Rattle.std.specs.Prelude.{◌≡◌, ◌+◌, ◌*◌, ◌%◌, ◌<◌, ◌≤◌, ◌^◌, ◌++◌, OnOk};
ghost use Rattle.crl_order.specs.Words.{words_of_seed};
ghost use Rattle.crl_gen.specs.Making as making;
ghost use Rattle.crl_gen.specs.Making.{each_from, round_of_kind};

use crate::REGION_SIZE;
use crate::words::Words;
use crl_model::bytes::Bytes;
use crl_model::call::Call;
use crl_model::name::Name;
use crl_model::statement::Statement;
use crl_model::{NodeNo, OutOfMemory};
use std::alloc::Global;

/// The name of a region, from 0.
pub(crate) fn region_name(nodes: NodeNo, region: u16) -> Name
    requires { 1 ≤ nodes }
    ensures { result ≡ making.region_name nodes region }
{
    Name::new(region % nodes, (region / nodes) as u32 + 1)
}

/// Appends a call.
pub(crate) fn push_call(block: &mut Vec<Statement>, call: Call) -> Result<(), OutOfMemory>
    ensures { OnOk result (block.new.items ≡ block.old.items ++ making.calls call) }
{
    block.push(Statement::Call(call))?;
    Ok(())
}

/// Appends two calls.
fn push_two(block: &mut Vec<Statement>, first: Call, second: Call) -> Result<(), OutOfMemory>
    ensures { OnOk result (block.new.items ≡ block.old.items ++ (making.calls first ++ making.calls second)) }
{
    push_call(block, first)?;
    push_call(block, second)
}

/// Appends the create of a region, if it's this node's.
fn push_create(
    block: &mut Vec<Statement>,
    nodes: NodeNo,
    node: NodeNo,
    region: u16,
) -> Result<(), OutOfMemory>
    requires { 1 ≤ nodes }
    ensures { OnOk result (block.new.items ≡ block.old.items ++ making.create_of nodes node region) }
{
    if region % nodes == node {
        return push_call(block, Call::Create { size: REGION_SIZE });
    }
    Ok(())
}

/// Appends the creates of a node.
pub(crate) fn push_creates(
    block: &mut Vec<Statement>,
    nodes: NodeNo,
    node: NodeNo,
    regions: u16,
) -> Result<(), OutOfMemory>
    requires { 1 ≤ nodes }
    ensures { OnOk result (block.new.items ≡ block.old.items ++ each_from (making.create_of nodes node) 0 regions) }
{
    for region in 0..regions {
        push_create(block, nodes, node, region)?;
    }
    Ok(())
}

/// Appends the maps of all regions.
pub(crate) fn push_maps(
    block: &mut Vec<Statement>,
    nodes: NodeNo,
    regions: u16,
) -> Result<(), OutOfMemory>
    requires { 1 ≤ nodes }
    ensures { OnOk result (block.new.items ≡ block.old.items ++ each_from (making.map_of nodes) 0 regions) }
{
    for region in 0..regions {
        let name = region_name(nodes, region);
        push_call(block, Call::Map { name })?;
    }
    Ok(())
}

/// Appends the unmaps of all regions.
pub(crate) fn push_unmaps(
    block: &mut Vec<Statement>,
    nodes: NodeNo,
    regions: u16,
) -> Result<(), OutOfMemory>
    requires { 1 ≤ nodes }
    ensures { OnOk result (block.new.items ≡ block.old.items ++ each_from (making.unmap_of nodes) 0 regions) }
{
    for region in 0..regions {
        let name = region_name(nodes, region);
        push_call(block, Call::Unmap { name })?;
    }
    Ok(())
}

/// Appends a round of this kind, 0 to 3.
pub(crate) fn push_kind(
    block: &mut Vec<Statement>,
    alloc: Global,
    name: Name,
    kind: u32,
) -> Result<(), OutOfMemory>
    ensures { OnOk result (block.new.items ≡ block.old.items ++ round_of_kind name kind) }
{
    if kind == 0 {
        push_two(block, Call::StartRead { name }, Call::EndRead { name })
    } else if kind == 1 {
        push_write(block, alloc, name)
    } else if kind == 2 {
        push_call(block, Call::Flush { name })
    } else {
        push_two(block, Call::Unmap { name }, Call::Map { name })
    }
}

/// Appends a round that writes.
fn push_write(block: &mut Vec<Statement>, alloc: Global, name: Name) -> Result<(), OutOfMemory>
    ensures { OnOk result (block.new.items ≡ block.old.items ++ making.round_of_write name) }
{
    push_call(block, Call::StartWrite { name })?;
    block.push(Statement::Add {
        name,
        offset: 0,
        number: 1,
    })?;
    let after = Bytes::from_vec(Vec::new(alloc));
    push_call(block, Call::EndWrite { name, after })
}

/// Appends the rounds of a node, which begin behind so many rounds.
pub(crate) fn push_rounds(
    block: &mut Vec<Statement>,
    alloc: Global,
    words: &mut Words,
    nodes: NodeNo,
    regions: u16,
    first: u64,
    rounds: u32,
) -> Result<(), OutOfMemory>
    requires nodes { 1 ≤ nodes }
    requires regions { 1 ≤ regions }
    requires given { (words.old.given ≡ 2 * first) × (first + rounds < 2 ^ 62) }
    ensures ok { OnOk result (block.new.items ≡ block.old.items ++ each_from (making.round_of (words_of_seed words.old.seed) nodes regions) first rounds) }
    ensures words { OnOk result (words.new ≡ record words.old { given = 2 * (first + rounds) }) }
{
    for round in 0..rounds {
        push_round(block, alloc, words, nodes, regions, first + round as u64)?;
    }
    Ok(())
}

/// Appends the round of this number, from 0.
fn push_round(
    block: &mut Vec<Statement>,
    alloc: Global,
    words: &mut Words,
    nodes: NodeNo,
    regions: u16,
    number: u64,
) -> Result<(), OutOfMemory>
    requires nodes { 1 ≤ nodes }
    requires regions { 1 ≤ regions }
    requires given { (words.old.given ≡ 2 * number) × (number < 2 ^ 62) }
    ensures ok { OnOk result (block.new.items ≡ block.old.items ++ making.round_of (words_of_seed words.old.seed) nodes regions number) }
    ensures words { words.new ≡ record words.old { given = 2 * (number + 1) } }
{
    let region = words.next() % regions as u32;
    let kind = words.next() % 4;
    let name = region_name(nodes, region as u16);
    push_kind(block, alloc, name, kind)
}
