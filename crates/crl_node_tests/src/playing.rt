//! A script is played to its end.
ghost use Rattle.std.specs.Prelude.{◌≡◌, ◌<◌, ◌≤◌, map, IfOk, IsTrue};
ghost use Rattle.std.specs.List.{All};
ghost use Rattle.crl_node_tests.specs.Plain.{IsPlain, IsBlock, AreBlocks};

use crl_model::bytes::Bytes;
use crl_model::call::Call;
use crl_model::report::Report;
use crl_model::statement::Statement;
use crl_model::{NodeNo, OutOfMemory};
use crl_node::Node;
use crl_order::Order;
use crl_run::run;
use crl_script::Script;
use std::alloc::Global;

/// More statements than a node has here, and more bytes than a put.
const LIMIT: usize = 1_000_000;

/// Whether the statement is one that scripts have.
fn is_plain(statement: &Statement) -> bool
    ensures { IsTrue result → IsPlain statement.now }
{
    match statement {
        Statement::Call(call) => is_plain_call(call),
        Statement::Put { bytes, .. } => bytes.len() < LIMIT,
        Statement::Add { .. } => true,
    }
}

/// The same of a call.
fn is_plain_call(call: &Call) -> bool
    ensures { IsTrue result → IsPlain (Statement.Call call.now) }
{
    match call {
        Call::Put { .. } | Call::Add { .. } => false,
        Call::Create { .. }
        | Call::Delete { .. }
        | Call::Map { .. }
        | Call::Unmap { .. }
        | Call::StartRead { .. }
        | Call::EndRead { .. }
        | Call::StartWrite { .. }
        | Call::EndWrite { .. }
        | Call::Flush { .. }
        | Call::Come { .. } => true,
    }
}

/// A copy of the statement.
fn copy_of(alloc: Global, statement: &Statement) -> Result<Statement, OutOfMemory>
    ensures { IfOk result (λ copy. copy ≡ statement.now) }
{
    Ok(match statement {
        Statement::Call(call) => Statement::Call(call.copy(alloc)?),
        Statement::Put {
            name,
            offset,
            bytes,
        } => Statement::Put {
            name: *name,
            offset: *offset,
            bytes: Bytes::copy_of(alloc, bytes.as_slice())?,
        },
        Statement::Add {
            name,
            offset,
            number,
        } => Statement::Add {
            name: *name,
            offset: *offset,
            number: *number,
        },
    })
}

/// The statements that scripts have.
fn block_of(alloc: Global, statements: &[Statement]) -> Result<Vec<Statement>, OutOfMemory>
    ensures { IfOk result (λ block. All IsPlain block.items) }
{
    let mut block = Vec::new(alloc);
    for statement in statements {
        if is_plain(statement) {
            block.push(copy_of(alloc, statement)?)?;
        }
    }
    Ok(block)
}

/// The same, if there are few of them; else none.
fn short_block_of(alloc: Global, statements: &[Statement]) -> Result<Vec<Statement>, OutOfMemory>
    ensures { IfOk result (λ block. IsBlock block.items) }
{
    let block = block_of(alloc, statements)?;
    if block.len() < LIMIT {
        return Ok(block);
    }
    Err(OutOfMemory)
}

/// The statements of each node.
fn blocks_of(alloc: Global, script: &Script) -> Result<Vec<Vec<Statement>>, OutOfMemory>
    ensures { IfOk result (λ blocks. AreBlocks script.now.nodes (map (λ b. b.items) blocks.items)) }
{
    let mut blocks = Vec::new(alloc);
    for node in 0..script.nodes() {
        blocks.push(short_block_of(alloc, script.statements(node))?)?;
    }
    Ok(blocks)
}

/// The report of the run of these statements under the order. None if the run is stuck, or memory is wanting.
fn play_blocks(
    alloc: Global,
    blocks: &[Vec<Statement>],
    nodes: NodeNo,
    capacity: u16,
    order: Order,
) -> Option<Report>
    requires nodes { (0 < nodes) × (nodes ≤ 64) }
    requires blocks { AreBlocks nodes (map (λ b. b.items) blocks.now) }
{
    run::<Node>(alloc, blocks, nodes, capacity, order).ok()
}

/// The report of the script's run under the order, in a world of nodes in code. None if the run is stuck, or memory is
/// wanting.
pub fn play(alloc: Global, script: &Script, order: Order) -> Option<Report> {
    let Ok(blocks) = blocks_of(alloc, script) else {
        return None;
    };
    play_blocks(
        alloc,
        blocks.as_slice(),
        script.nodes(),
        script.cache(),
        order,
    )
}
