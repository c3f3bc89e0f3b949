//! What is printed of a run that is over.
ghost use Rattle.std.specs.Prelude.{◌≡◌, ◌<◌, ◌^◌, ◌++◌, [], if◌then◌else◌, length, map, IfOk, OnOk};
ghost use Rattle.crl_protocol.specs.World.{messages_sent};
ghost use Rattle.crl_protocol.specs.Ends as ends;
ghost use Rattle.crl_world.specs.Seen.{world_seen};
ghost use Rattle.crl_run.specs.Reporting.{running_seen, PrintsWhatIs};

use crate::player::Player;
use crl_member::Member;
use crl_model::blocked::Blocked;
use crl_model::report::{FinalRegion, Report};
use crl_model::statement::Statement;
use crl_model::{NodeNo, OutOfMemory};
use crl_world::World;
use std::alloc::Global;

/// The node is free and has no statement left.
fn is_finished<N: Member>(
    blocks: &[Vec<Statement>],
    world: &World<N>,
    players: &[Player],
    i: NodeNo,
) -> bool
    requires nodes { (length blocks.now ≡ length players.now) × (length world.now.nodes ≡ length players.now) }
    requires node { i < length players.now }
    ensures { result ≡ ends.is_finished i (running_seen (map (λ b. b.items) blocks.now) (world_seen N.state world.now) players.now) }
{
    world.is_free(i) && players[i as usize].is_done(blocks[i as usize].as_slice())
}

/// Some node isn't finished.
pub(crate) fn is_stuck<N: Member>(
    blocks: &[Vec<Statement>],
    world: &World<N>,
    players: &[Player],
) -> bool
    requires nodes { (length blocks.now ≡ length players.now) × (length world.now.nodes ≡ length players.now) }
    ensures { result ≡ ends.is_stuck (running_seen (map (λ b. b.items) blocks.now) (world_seen N.state world.now) players.now) }
{
    for i in 0..world.count() {
        if !is_finished(blocks, world, players, i) {
            return true;
        }
    }
    false
}

/// What blocks each node that isn't finished.
///
/// # Errors
///
/// `OutOfMemory`.
pub(crate) fn blocked_nodes<N: Member>(
    alloc: Global,
    blocks: &[Vec<Statement>],
    world: &World<N>,
    players: &[Player],
) -> Result<Vec<Blocked>, OutOfMemory>
    requires nodes { (length blocks.now ≡ length players.now) × (length world.now.nodes ≡ length players.now) }
    ensures { let w = world_seen N.state world.now in
        IfOk result (λ list. list.items ≡ ends.blocked_from 0 w.count (running_seen (map (λ b. b.items) blocks.now) w players.now)) }
{
    let mut list = Vec::new(alloc);
    for i in 0..world.count() {
        push_blocked(blocks, world, players, &mut list, i)?;
    }
    Ok(list)
}

/// Pushes what blocks the node, if it isn't finished.
fn push_blocked<N: Member>(
    blocks: &[Vec<Statement>],
    world: &World<N>,
    players: &[Player],
    list: &mut Vec<Blocked>,
    i: NodeNo,
) -> Result<(), OutOfMemory>
    requires nodes { (length blocks.now ≡ length players.now) × (length world.now.nodes ≡ length players.now) }
    requires node { i < length players.now }
    ensures { let r = running_seen (map (λ b. b.items) blocks.now) (world_seen N.state world.now) players.now in
        OnOk result (list.new.items ≡ list.old.items ++ (if ends.is_finished i r then [] else ends.blocked_line (ends.blocked_at i r.world))) }
{
    if is_finished(blocks, world, players, i) {
        return Ok(());
    }
    if let Some(blocked) = world.blocked(i) {
        list.push(blocked)?;
    }
    Ok(())
}

/// The regions at the end, and none of a run that is stuck.
///
/// # Errors
///
/// `OutOfMemory`.
fn regions_unless<N: Member>(
    alloc: Global,
    world: &World<N>,
    stuck: bool,
) -> Result<Vec<FinalRegion>, OutOfMemory>
    ensures { IfOk result (λ list. list.items ≡ (if stuck then [] else ends.regions (world_seen N.state world.now))) }
{
    if stuck {
        return Ok(Vec::new(alloc));
    }
    world.regions(alloc)
}

/// What blocks the nodes of a run that is stuck.
///
/// # Errors
///
/// `OutOfMemory`.
fn blocked_if<N: Member>(
    alloc: Global,
    blocks: &[Vec<Statement>],
    world: &World<N>,
    players: &[Player],
    stuck: bool,
) -> Result<Vec<Blocked>, OutOfMemory>
    requires nodes { (length blocks.now ≡ length players.now) × (length world.now.nodes ≡ length players.now) }
    ensures { let w = world_seen N.state world.now in
        let r = running_seen (map (λ b. b.items) blocks.now) w players.now in
        IfOk result (λ list. list.items ≡ (if stuck then ends.blocked_from 0 w.count r else [])) }
{
    if stuck {
        return blocked_nodes(alloc, blocks, world, players);
    }
    Ok(Vec::new(alloc))
}

/// The report of a run that is over. The nodes are let go.
///
/// # Errors
///
/// `OutOfMemory`.
pub(crate) fn report_of<N: Member>(
    alloc: Global,
    blocks: &[Vec<Statement>],
    world: World<N>,
    players: &[Player],
    stuck: bool,
) -> Result<Report, OutOfMemory>
    requires nodes { (length blocks.now ≡ length players.now) × (length world.nodes ≡ length players.now) }
    requires stuck { stuck ≡ ends.is_stuck (running_seen (map (λ b. b.items) blocks.now) (world_seen N.state world) players.now) }
    requires messages { messages_sent (world_seen N.state world) < 2 ^ 64 }
    ensures { IfOk result (λ printed. PrintsWhatIs (map (λ b. b.items) blocks.now) (world_seen N.state world) players.now printed) }
{
    let regions = regions_unless(alloc, &world, stuck)?;
    let blocked = blocked_if(alloc, blocks, &world, players, stuck)?;
    let events = world.events();
    let messages = world.messages() as u64;
    let entries = world.account(alloc)?;
    Ok(Report {
        entries,
        regions,
        blocked,
        events,
        messages,
    })
}
