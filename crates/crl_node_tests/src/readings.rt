//! A guard that its node keeps for longer than the section is open.
ghost use Rattle.std.specs.Prelude.{◌≡◌, ◌+◌, ◌≤◌, length, IfSome};
ghost use Rattle.crl_world.specs.Seen.{world_seen};
ghost use Rattle.crl_node_tests.specs.Reached.{IsReached};

use crate::driving::{end_read, end_write, make, new_world, wait_for};
use crl_guard::{Reading, Writing};
use crl_member::Member;
use crl_model::NodeNo;
use crl_model::activity::Answer;
use crl_model::bytes::Bytes;
use crl_model::call::Call;
use crl_model::name::Name;
use crl_node::Node;
use crl_world::World;
use std::alloc::Global;
use std::test::Fail;

/// The guard of the answer, if it is one of a read section; another one is spent.
fn reading_of(answer: Option<Answer<Reading, Writing>>) -> Option<Reading> {
    match answer {
        Some(Answer::Reading(guard)) => Some(guard),
        Some(Answer::Writing(guard)) => {
            guard.discard();
            None
        }
        Some(Answer::Came { round: _, fold }) => {
            drop(fold);
            None
        }
        Some(
            Answer::Made(_)
            | Answer::Mapped { name: _, size: _ }
            | Answer::Done
            | Answer::Refused(_)
            | Answer::Wait,
        )
        | None => None,
    }
}

/// The same of a write section.
fn writing_of(answer: Option<Answer<Reading, Writing>>) -> Option<Writing> {
    match answer {
        Some(Answer::Writing(guard)) => Some(guard),
        other => {
            spend(reading_of(other));
            None
        }
    }
}

fn spend(guard: Option<Reading>) {
    if let Some(guard) = guard {
        guard.discard();
    }
}

/// Another guard of the same section.
fn again(alloc: Global, guard: &Reading) -> Option<Reading> {
    let bytes = Bytes::copy_of(alloc, guard.bytes()).ok()?;
    Some(Reading::new(bytes, guard.node(), guard.name(), guard.number()))
}

/// A node's next section of the region, to read.
fn read<N: Member>(world: &mut World<N>, i: NodeNo, name: Name) -> Option<Reading>
    requires { IsReached (world_seen N.state world.old) }
    ensures { IsReached (world_seen N.state world.new) }
{
    reading_of(wait_for(world, i, Call::StartRead { name }, &[false, false]))
}

/// The home writes this byte in a section of its own. Whether it did.
fn write<N: Member>(alloc: Global, world: &mut World<N>, name: Name, byte: u8) -> bool
    requires { IsReached (world_seen N.state world.old) }
    ensures { IsReached (world_seen N.state world.new) }
{
    let answer = wait_for(world, 0, Call::StartWrite { name }, &[false, false]);
    let Some(mut guard) = writing_of(answer) else {
        return false;
    };
    if guard.bytes().len() == 1 {
        guard.put(0, &[byte]);
    }
    end_write(alloc, world, guard)
}

/// A world of two nodes that have both mapped the region of one byte that the first one made.
fn mapped<N: Member>(alloc: Global, name: Name) -> Option<World<N>>
    ensures { IfSome result (λ w. IsReached (world_seen N.state w)) }
{
    let mut world = new_world::<N>(alloc, 2, 16)?;
    spend(reading_of(make(&mut world, 0, Call::Create { size: 1 })));
    spend(reading_of(make(&mut world, 0, Call::Map { name })));
    spend(reading_of(wait_for(&mut world, 1, Call::Map { name }, &[false, false])));
    Some(world)
}

// Its section is ended by another guard of it; the home writes, and the node reads again.
#[test]
fn a_reading_outlives_the_next_grant(rt: HostRuntime) -> Result<(), Fail> {
    let name = Name::new(0, 1);
    let mut world = mapped::<Node>(rt.alloc(), name).expect(&rt, "there is memory");
    let first = read(&mut world, 1, name).expect(&rt, "a section opens");
    let other = again(rt.alloc(), &first).expect(&rt, "there is memory");
    assert!(rt; end_read(&mut world, other));
    assert!(rt; write(rt.alloc(), &mut world, name, 7));
    let second = read(&mut world, 1, name).expect(&rt, "a section opens again");
    assert!(rt; first.number() < second.number());
    assert_eq!(rt; first.bytes(), [0].as_slice());
    assert_eq!(rt; second.bytes(), [7].as_slice());
    first.discard();
    assert!(rt; end_read(&mut world, second));
    Ok(())
}
