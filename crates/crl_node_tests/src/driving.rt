//! A world of nodes that is driven by hand, one event at a time. It is always the world of some run.
ghost use Rattle.std.specs.Prelude.{◌≡◌, ◌<◌, ◌≤◌, true, length, IfSome, IsTrue};
ghost use Rattle.crl_model.specs.declared.event.Event.TheVariants as event;
ghost use Rattle.crl_protocol.specs.World.{is_enabled};
ghost use Rattle.crl_world.specs.Seen.{world_seen};
ghost use Rattle.crl_world.specs.Stepping.{reading_fits, writing_fits, end_of_reading, end_of_writing, MayEnd};
ghost use Rattle.crl_node_tests.specs.Reached.{IsReached, IsAllowed, MayPass, is_made};

use crl_guard::{Reading, Writing};
use crl_member::Member;
use crl_model::NodeNo;
use crl_model::activity::Answer;
use crl_model::bytes::Bytes;
use crl_model::call::Call;
use crl_model::choice::Choice;
use crl_world::{CallFault, EndFault, World};
use std::alloc::Global;

/// More events than there are here.
pub const LIMIT: u64 = 1_000_000;

/// A new world of so many nodes, each with room for so many names in its cache. It is tried again where memory is wanting.
pub fn new_world<N: Member>(alloc: Global, nodes: NodeNo, capacity: u16) -> Option<World<N>>
    ensures { IfSome result (λ w. IsReached (world_seen N.state w)) }
{
    match try_world(alloc, nodes, capacity) {
        Some(world) => Some(world),
        None => try_world(alloc, nodes, capacity),
    }
}

/// The same, tried once.
#[tactic(auto, using(crate::proofs::Reaching::reached_first))]
fn try_world<N: Member>(alloc: Global, nodes: NodeNo, capacity: u16) -> Option<World<N>>
    ensures { IfSome result (λ w. IsReached (world_seen N.state w)) }
{
    match World::new(alloc, nodes, capacity) {
        Ok(world) => Some(world),
        Err(_) => None,
    }
}

/// Whether the call is neither the end of a section nor a change.
fn is_made(call: &Call) -> bool
    ensures { result ≡ is_made call.now }
{
    match call {
        Call::EndRead { .. } | Call::EndWrite { .. } | Call::Put { .. } | Call::Add { .. } => false,
        Call::Create { .. }
        | Call::Delete { .. }
        | Call::Map { .. }
        | Call::Unmap { .. }
        | Call::StartRead { .. }
        | Call::StartWrite { .. }
        | Call::Flush { .. }
        | Call::Come { .. } => true,
    }
}

/// The node makes the call, if it is free.
pub fn make<N: Member>(
    world: &mut World<N>,
    i: NodeNo,
    call: Call,
) -> Option<Answer<Reading, Writing>>
    requires { IsReached (world_seen N.state world.old) }
    ensures { IsReached (world_seen N.state world.new) }
{
    try_call(world, i, call).ok()
}

/// The same. The call is handed back where memory is wanting.
#[tactic(auto, using(crate::proofs::Reaching::all_safe, crate::proofs::Reaching::call_reached, crate::proofs::Coming::made_enabled))]
pub fn try_call<N: Member>(
    world: &mut World<N>,
    i: NodeNo,
    call: Call,
) -> Result<Answer<Reading, Writing>, Option<Call>>
    requires { IsReached (world_seen N.state world.old) }
    ensures { IsReached (world_seen N.state world.new) }
{
    if i >= world.count() || world.events() > LIMIT || !world.is_free(i) || !is_made(&call) {
        return Err(None);
    }
    match world.call(i, call) {
        Ok(answer) => Ok(answer),
        Err(CallFault::OutOfMemory(back)) => Err(Some(back)),
        Err(CallFault::Spent(_)) => Err(None),
    }
}

/// The node takes the answer for which it waited, if it is there.
#[tactic(auto, using(crate::proofs::Reaching::all_safe, crate::proofs::Reaching::collect_reached, crate::proofs::Coming::collect_enabled))]
pub fn collect<N: Member>(world: &mut World<N>, i: NodeNo) -> Option<Answer<Reading, Writing>>
    requires { IsReached (world_seen N.state world.old) }
    ensures { IsReached (world_seen N.state world.new) }
{
    if i >= world.count() || world.events() > LIMIT || !world.is_ready(i) {
        return None;
    }
    world.collect(i).ok()
}

/// The read section of the guard ends. Whether it did; the guard is spent.
#[tactic(auto, using(crate::proofs::Reaching::all_safe, crate::proofs::Reaching::end_reached, crate::proofs::Coming::read_enabled))]
pub fn end_read<N: Member>(world: &mut World<N>, guard: Reading) -> bool
    requires { IsReached (world_seen N.state world.old) }
    ensures { IsReached (world_seen N.state world.new) }
{
    if world.events() > LIMIT || !world.fits_reading(&guard) || !may_end_read(world, &guard) {
        guard.discard();
        return false;
    }
    match world.end_read(guard) {
        Ok(()) => true,
        Err(EndFault::Foreign(guard)) => {
            guard.discard();
            false
        }
        Err(EndFault::Spent(guard)) => {
            guard.discard();
            false
        }
    }
}

/// Whether the guard's node may end its read section.
fn may_end_read<N: Member>(world: &World<N>, guard: &Reading) -> bool
    requires { reading_fits guard.now (world_seen N.state world.now) ≡ true }
    ensures { IsTrue result → MayEnd guard.now (end_of_reading guard.now) (world_seen N.state world.now) }
{
    let end = Call::EndRead { name: guard.name() };
    world.is_free(guard.node()) && world.verdict(guard.node(), &end).is_none()
}

/// The write section of the guard ends. Whether it did; the guard is spent.
#[tactic(auto, using(crate::proofs::Reaching::all_safe, crate::proofs::Reaching::end_reached, crate::proofs::Coming::write_enabled))]
pub fn end_write<N: Member>(alloc: Global, world: &mut World<N>, guard: Writing) -> bool
    requires { IsReached (world_seen N.state world.old) }
    ensures { IsReached (world_seen N.state world.new) }
{
    if world.events() > LIMIT
        || !world.fits_writing(&guard)
        || !may_end_write(alloc, world, &guard)
    {
        guard.discard();
        return false;
    }
    match world.end_write(guard) {
        Ok(()) => true,
        Err(EndFault::Foreign(guard)) => {
            guard.discard();
            false
        }
        Err(EndFault::Spent(guard)) => {
            guard.discard();
            false
        }
    }
}

/// Whether the guard's node may end its write section. Its bytes aren't looked at for that.
fn may_end_write<N: Member>(alloc: Global, world: &World<N>, guard: &Writing) -> bool
    requires { writing_fits guard.now (world_seen N.state world.now) ≡ true }
    ensures { IsTrue result → MayEnd guard.now (end_of_writing guard.now) (world_seen N.state world.now) }
{
    let end = Call::EndWrite {
        name: guard.name(),
        after: Bytes::from_vec(Vec::new(alloc)),
    };
    is_allowed(world, guard.node(), &end)
}

/// Whether the node is free, and doesn't refuse the call.
fn is_allowed<N: Member>(world: &World<N>, i: NodeNo, call: &Call) -> bool
    requires { i < length world.now.nodes }
    ensures { IsTrue result → IsAllowed i call.now (world_seen N.state world.now) }
{
    world.is_free(i) && world.verdict(i, call).is_none()
}

/// The node handles the piece at this place of its inbox.
#[tactic(auto, using(crate::proofs::Reaching::all_safe, crate::proofs::Reaching::passed_reached, crate::proofs::Reaching::piece_safe))]
fn handle<N: Member>(world: &mut World<N>, i: NodeNo, place: usize) -> bool
    requires reached { IsReached (world_seen N.state world.old) }
    requires few { world.old.events ≤ 1000000 }
    requires may { is_enabled (event.Handle i place) (world_seen N.state world.old) ≡ true }
    ensures { IsReached (world_seen N.state world.new) }
{
    world.handle(i, place).is_ok()
}

/// The piece at this place of the node's outbox is carried.
#[tactic(auto, using(crate::proofs::Reaching::all_safe, crate::proofs::Reaching::passed_reached, crate::proofs::Reaching::piece_leaves))]
fn carry<N: Member>(world: &mut World<N>, i: NodeNo, place: usize) -> bool
    requires reached { IsReached (world_seen N.state world.old) }
    requires few { world.old.events ≤ 1000000 }
    requires may { is_enabled (event.Carry i place) (world_seen N.state world.old) ≡ true }
    ensures { IsReached (world_seen N.state world.new) }
{
    world.carry(i, place).is_ok()
}

/// The first choice, if there is one.
#[tactic(auto, using(crate::proofs::Reaching::choice_passes))]
pub fn first_choice<N: Member>(world: &World<N>, left: &[bool]) -> Option<Choice>
    ensures { IfSome result (MayPass (world_seen N.state world.now)) }
{
    if left.len() != world.count() as usize {
        return None;
    }
    let counts = world.counts(left);
    if counts.all == 0 {
        return None;
    }
    Some(world.choice(left, &counts, 0))
}

/// The first message is handled or carried, if no node has an answer to take. Whether there was one.
pub fn pass_one<N: Member>(world: &mut World<N>, left: &[bool]) -> bool
    requires { IsReached (world_seen N.state world.old) }
    ensures { IsReached (world_seen N.state world.new) }
{
    if world.events() > LIMIT {
        return false;
    }
    match first_choice(world, left) {
        Some(Choice::Handle(i, place)) => handle(world, i, place),
        Some(Choice::Carry(i, place)) => carry(world, i, place),
        Some(Choice::Statement(_) | Choice::Collect(_)) | None => false,
    }
}

/// Messages are handled and carried, the first one first, until a node has an answer to take, or none is left.
pub fn pass<N: Member>(world: &mut World<N>, left: &[bool])
    requires { IsReached (world_seen N.state world.old) }
    ensures { IsReached (world_seen N.state world.new) }
{
    for _ in 0..LIMIT {
        if !pass_one(world, left) {
            return;
        }
    }
}

/// The node makes the call, and waits for its answer until there is one, or no message is left. Of an answer that comes at
/// once only a guard is given.
pub fn wait_for<N: Member>(
    world: &mut World<N>,
    i: NodeNo,
    call: Call,
    left: &[bool],
) -> Option<Answer<Reading, Writing>>
    requires { IsReached (world_seen N.state world.old) }
    ensures { IsReached (world_seen N.state world.new) }
{
    match make(world, i, call) {
        Some(Answer::Wait) | None => {
            pass(world, left);
            collect(world, i)
        }
        Some(Answer::Reading(guard)) => Some(Answer::Reading(guard)),
        Some(Answer::Writing(guard)) => Some(Answer::Writing(guard)),
        Some(Answer::Came { round: _, fold }) => {
            drop(fold);
            None
        }
        Some(
            Answer::Made(_)
            | Answer::Mapped { name: _, size: _ }
            | Answer::Done
            | Answer::Refused(_),
        ) => None,
    }
}
