//! The script of a seed.
ghost use Rattle.std.specs.Prelude.{◌≡◌, ◌+◌, ◌*◌, ◌<◌, ◌≤◌, ◌^◌, ◌++◌, IfOk, OnOk, map, length};
ghost use Rattle.crl_order.specs.Words.{words_of_seed};
ghost use Rattle.crl_gen.specs.Making.{block_made, script_made};
ghost use Rattle.crl_script.specs.Again.{IsPrintable};

use crate::CACHE;
use crate::rounds::{push_call, push_creates, push_maps, push_rounds, push_unmaps};
use crate::words::Words;
use crl_model::call::Call;
use crl_model::collective::Part;
use crl_model::statement::Statement;
use crl_model::{NodeNo, OutOfMemory};
use crl_script::Script;
use std::alloc::Global;

/// The script that a seed makes for so many nodes, regions and rounds of each node. Each node creates its share of the
/// regions, maps all, does its rounds, which read, write, flush, or unmap and map one region each, and unmaps all; barriers
/// stand around the maps and the rounds. The script is read again from its canonical text where all nodes together have at
/// most 2^24 rounds.
///
/// # Errors
///
/// `OutOfMemory`.
pub fn make(
    alloc: Global,
    seed: u64,
    nodes: NodeNo,
    regions: u16,
    rounds: u32,
) -> Result<Script, OutOfMemory>
    requires nodes { (1 ≤ nodes) × (nodes ≤ 64) }
    requires regions { 1 ≤ regions }
    ensures made { IfOk result (λ script. script ≡ script_made (words_of_seed seed) nodes regions rounds) }
    ensures printable { nodes * rounds ≤ 2 ^ 24 → IfOk result IsPrintable }
{
    let mut words = Words::new(seed);
    let mut blocks = Vec::new(alloc);
    for node in 0..nodes {
        blocks.push(block(alloc, &mut words, nodes, regions, rounds, node)?)?;
    }
    Ok(Script::new(CACHE, blocks))
}

/// The statements of a node.
fn block(
    alloc: Global,
    words: &mut Words,
    nodes: NodeNo,
    regions: u16,
    rounds: u32,
    node: NodeNo,
) -> Result<Vec<Statement>, OutOfMemory>
    requires nodes { (1 ≤ nodes) × (node < 64) }
    requires regions { 1 ≤ regions }
    requires given { words.old.given ≡ 2 * (node * rounds) }
    ensures ok { IfOk result (λ block. block.items ≡ block_made (words_of_seed words.old.seed) nodes regions rounds node) }
    ensures words { OnOk result (words.new ≡ record words.old { given = 2 * (node * rounds + rounds) }) }
{
    let mut block = Vec::new(alloc);
    push_creates(&mut block, nodes, node, regions)?;
    push_call(
        &mut block,
        Call::Come {
            part: Part::Barrier,
        },
    )?;
    push_maps(&mut block, nodes, regions)?;
    push_rounds(
        &mut block,
        alloc,
        words,
        nodes,
        regions,
        node as u64 * rounds as u64,
        rounds,
    )?;
    push_call(
        &mut block,
        Call::Come {
            part: Part::Barrier,
        },
    )?;
    push_unmaps(&mut block, nodes, regions)?;
    Ok(block)
}
