//! A script that is played by hand. Each turn takes the first choice, and is tried again where memory was wanting.
ghost use Rattle.std.specs.Prelude.{◌≡◌, IfSome};
ghost use Rattle.crl_world.specs.Seen.{world_seen};
ghost use Rattle.crl_node_tests.specs.Reached.{IsReached};

use crate::driving::{
    LIMIT, collect, end_read, end_write, first_choice, new_world, pass_one, try_call,
};
use crl_account::{write_account, write_region};
use crl_guard::{Reading, Writing};
use crl_member::Member;
use crl_model::activity::Answer;
use crl_model::call::Call;
use crl_model::choice::Choice;
use crl_model::name::Name;
use crl_model::statement::Statement;
use crl_model::{NodeNo, OutOfMemory};
use crl_run::Held;
use crl_script::Script;
use crl_world::World;
use std::alloc::Global;

/// How many sections a node has open at most.
const GUARDS: usize = 4;

/// A node's place in its statements, and the guards of its open sections, the newest first.
#[derive(Drop)]
struct Hand {
    place: usize,
    guards: Vec<Held>,
}

/// The hands of all nodes, and which of them have a statement left.
#[derive(Drop)]
struct Hands {
    hands: Vec<Hand>,
    left: Vec<bool>,
}

/// The bytes are put into the guard, if they have room from `offset` on.
fn put_into(guard: &mut Writing, offset: usize, bytes: &[u8]) -> bool {
    let len = guard.bytes().len();
    if offset > len || bytes.len() > len - offset {
        return false;
    }
    guard.put(offset, bytes);
    true
}

/// The number whose eight bytes stand in the list from `offset` on, the highest first.
fn word_at(bytes: &[u8], offset: usize) -> Option<u64> {
    let end = offset.checked_add(8)?;
    let found = bytes.get(offset..end)?;
    let mut word = [0; 8];
    word.copy_from_slice(found);
    Some(u64::from_be_bytes(word))
}

impl Hand {
    /// Before the first statement, with room for the guards.
    fn new(alloc: Global) -> Result<Hand, OutOfMemory> {
        Ok(Hand {
            place: 0,
            guards: Vec::with_capacity(alloc, GUARDS)?,
        })
    }

    /// Keeps the guard of the answer, if it has one and there is room.
    fn keep(&mut self, answer: Answer<Reading, Writing>) -> bool {
        match answer {
            Answer::Reading(guard) => self.guards.insert(0, Held::Read(guard)).is_ok(),
            Answer::Writing(guard) => self.guards.insert(0, Held::Write(guard)).is_ok(),
            Answer::Made(_) => true,
            Answer::Mapped { .. } => true,
            Answer::Done => true,
            Answer::Came { .. } => true,
            Answer::Refused(_) => true,
            Answer::Wait => true,
        }
    }

    /// Hands out the newest guard of the region.
    fn take(&mut self, name: Name) -> Option<Held> {
        for place in 0..self.guards.len() {
            if self.guards[place].name() == name {
                return Some(self.guards.remove(place));
            }
        }
        None
    }

    /// Puts the bytes into the region's write section.
    fn put(&mut self, name: Name, offset: usize, bytes: &[u8]) -> bool {
        for held in &mut self.guards {
            if let Held::Write(guard) = held {
                if guard.name() == name {
                    return put_into(guard, offset, bytes);
                }
            }
        }
        false
    }

    /// Adds to eight bytes of the region's write section.
    fn add(&mut self, name: Name, offset: usize, number: u64) -> bool {
        for held in &mut self.guards {
            if let Held::Write(guard) = held {
                if guard.name() == name {
                    let Some(word) = word_at(guard.bytes(), offset) else {
                        return false;
                    };
                    let sum = word.wrapping_add(number).to_be_bytes();
                    return put_into(guard, offset, sum.as_slice());
                }
            }
        }
        false
    }
}

/// The hands of nodes that did nothing yet.
fn new_hands(alloc: Global, script: &Script) -> Result<Hands, OutOfMemory> {
    let mut hands = Vec::new(alloc);
    let mut left = Vec::new(alloc);
    for block in script.blocks() {
        hands.push(Hand::new(alloc)?)?;
        left.push(!block.is_empty())?;
    }
    Ok(Hands { hands, left })
}

/// The section of the guard ends. Whether it did.
fn end<N: Member>(alloc: Global, world: &mut World<N>, held: Held) -> bool
    requires { IsReached (world_seen N.state world.old) }
    ensures { IsReached (world_seen N.state world.new) }
{
    if matches!(&held, Held::Read(_)) {
        end_read(world, held.into_reading())
    } else {
        end_write(alloc, world, held.into_writing())
    }
}

/// The node makes the call. If it is handed back for want of memory it is the same, and is made then. Whether it was made.
fn make_again<N: Member>(
    alloc: Global,
    world: &mut World<N>,
    hand: &mut Hand,
    i: NodeNo,
    call: &Call,
) -> bool
    requires { IsReached (world_seen N.state world.old) }
    ensures { IsReached (world_seen N.state world.new) }
{
    let Ok(copy) = call.copy(alloc) else {
        return false;
    };
    match try_call(world, i, copy) {
        Ok(answer) => hand.keep(answer),
        Err(None) => false,
        Err(Some(back)) => {
            if back != *call {
                return false;
            }
            match try_call(world, i, back) {
                Ok(answer) => hand.keep(answer),
                Err(_) => false,
            }
        }
    }
}

/// The node does what the statement says. Whether it did.
fn act<N: Member>(
    alloc: Global,
    world: &mut World<N>,
    hand: &mut Hand,
    i: NodeNo,
    statement: &Statement,
) -> bool
    requires { IsReached (world_seen N.state world.old) }
    ensures { IsReached (world_seen N.state world.new) }
{
    match statement {
        Statement::Put {
            name,
            offset,
            bytes,
        } => hand.put(*name, *offset as usize, bytes.as_slice()),
        Statement::Add {
            name,
            offset,
            number,
        } => hand.add(*name, *offset as usize, *number),
        Statement::Call(Call::EndRead { name } | Call::EndWrite { name, after: _ }) => {
            match hand.take(*name) {
                Some(held) => end(alloc, world, held),
                None => false,
            }
        }
        Statement::Call(call) => make_again(alloc, world, hand, i, call),
    }
}

/// The node takes its next statement. Whether it did.
fn take_statement<N: Member>(
    alloc: Global,
    world: &mut World<N>,
    script: &Script,
    hands: &mut Hands,
    i: NodeNo,
) -> bool
    requires { IsReached (world_seen N.state world.old) }
    ensures { IsReached (world_seen N.state world.new) }
{
    let i_place = i as usize;
    let (Some(block), Some(hand)) = (script.blocks().get(i_place), hands.hands.get_mut(i_place))
    else {
        return false;
    };
    let Some(statement) = block.get(hand.place) else {
        return false;
    };
    if !act(alloc, world, hand, i, statement) {
        return false;
    }
    hand.place = hand.place.saturating_add(1);
    if let Some(left) = hands.left.get_mut(i_place) {
        *left = hand.place < block.len();
    }
    true
}

/// The node takes the answer for which it waited. Whether it did.
fn take_answer<N: Member>(world: &mut World<N>, hands: &mut Hands, i: NodeNo) -> bool
    requires { IsReached (world_seen N.state world.old) }
    ensures { IsReached (world_seen N.state world.new) }
{
    let Some(hand) = hands.hands.get_mut(i as usize) else {
        return false;
    };
    match collect(world, i) {
        Some(answer) => hand.keep(answer),
        None => false,
    }
}

/// The first choice is taken. Whether there was one, and it was done.
fn take_turn<N: Member>(
    alloc: Global,
    world: &mut World<N>,
    script: &Script,
    hands: &mut Hands,
) -> bool
    requires { IsReached (world_seen N.state world.old) }
    ensures { IsReached (world_seen N.state world.new) }
{
    match first_choice(world, hands.left.as_slice()) {
        Some(Choice::Statement(i)) => take_statement(alloc, world, script, hands, i),
        Some(Choice::Collect(i)) => take_answer(world, hands, i),
        Some(Choice::Handle(_, _) | Choice::Carry(_, _)) => pass_one(world, hands.left.as_slice()),
        None => false,
    }
}

/// The world in which the script was played to its end. None if it has no end, or a turn wants memory twice.
pub fn play_by_hand<N: Member>(alloc: Global, script: &Script) -> Option<World<N>>
    ensures { IfSome result (λ w. IsReached (world_seen N.state w)) }
{
    let mut world = new_world::<N>(alloc, script.nodes(), script.cache())?;
    let mut hands = match new_hands(alloc, script) {
        Ok(hands) => hands,
        Err(_) => new_hands(alloc, script).ok()?,
    };
    for _ in 0..LIMIT {
        if !take_turn(alloc, &mut world, script, &mut hands)
            && !take_turn(alloc, &mut world, script, &mut hands)
        {
            break;
        }
    }
    for i in 0..world.count() {
        if !world.is_free(i) || hands.left.get(i as usize) != Some(&false) {
            return None;
        }
    }
    Some(world)
}

/// What is told of the world: its entries, and its regions.
pub fn tell<N: Member>(alloc: Global, world: World<N>) -> Result<Vec<u8>, OutOfMemory> {
    let mut text = Vec::new(alloc);
    let regions = world.regions(alloc)?;
    let entries = world.account(alloc)?;
    write_account(entries.as_slice(), &mut text)?;
    for region in regions {
        write_region(region.name, region.bytes.as_slice(), &mut text)?;
    }
    Ok(text)
}
