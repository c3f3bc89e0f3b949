ghost use Rattle.std.specs.Prelude.{◌≡◌, ◌<◌, IfOk};
ghost use Rattle.crl_turns.specs.Passes.{view_of, part_count, IsOf};
ghost use Rattle.crl_turns.specs.Plays.{blank_view};

use crate::counting::append_counted;
use crate::tally::Tally;
use crl_model::event::Event;
use crl_turns::turned::Shape;
use crl_turns::{AppendFault, CloseWhy, Pass, Turns};
use std::alloc::Global;
use std::test::Fail;
use std::thread::{Threads, join};

fn two(alloc: Global) -> Result<(Turns<Tally>, Pass), Fail>
    ensures { IfOk result (λ r. (part_count r.0 ≡ 2) × IsOf r.0 r.1 × (view_of r.1 ≡ blank_view)) }
{
    let shape = Shape { parts: 2, extra: 0 };
    let mut values = Vec::new(alloc);
    values.push(Tally { shape, count: 0 })?;
    values.push(Tally { shape, count: 0 })?;
    Ok(Turns::new(alloc, values)?)
}

// Both load the count, and then both append.
#[test]
fn one_append_is_moved(rt: HostRuntime) -> Result<(), Fail> {
    let (turns, mut one) = two(rt.alloc())?;
    let mut other = turns.split(&mut one);
    let mut first = turns.try_take(&mut one, 0).expect(&rt, "the turn is in");
    assert!(rt; turns.try_take(&mut other, 0).is_err());
    let second = turns.try_take(&mut other, 1).expect(&rt, "the turn is in");
    let saw = turns.seen(&mut one);
    let saw_too = turns.seen(&mut other);
    assert!(rt; saw == 0 && saw_too == 0);
    let made = turns.append(&mut one, saw, &Event::Collect { node: 0 });
    assert!(rt; made.is_ok());
    let made = turns.append(&mut other, saw_too, &Event::Collect { node: 1 });
    assert!(rt; made == Err(AppendFault::Moved { saw: 0, found: 1 }) && second.count == 0);
    first.count += 1;
    turns.give_back(&mut one, 0, first);
    assert!(rt; turns.try_take(&mut one, 1).is_err() && turns.try_take(&mut one, 0).is_ok());
    Ok(())
}

#[test]
fn closes_with_the_counts(rt: HostRuntime) -> Result<(), Fail> {
    let (turns, mut one) = two(rt.alloc())?;
    let mut other = turns.split(&mut one);
    let made = append_counted(&turns, &mut other, 1, &Event::Handle { node: 1, place: 5 });
    assert!(rt; made.is_ok());
    let mut passes = Vec::with_capacity(rt.alloc(), 2)?;
    passes.push_reserved(one);
    passes.push_reserved(other);
    let Ok((values, events)) = turns.close(rt.alloc(), passes) else {
        panic!(rt; "it was not closed");
    };
    assert!(rt; events == 1 && values.len() == 2);
    assert!(rt; values[0].count == 0 && values[1].count == 1);
    Ok(())
}

#[test]
fn stays_open_while_a_turn_is_out(rt: HostRuntime) -> Result<(), Fail> {
    let (turns, mut one) = two(rt.alloc())?;
    let mut other = turns.split(&mut one);
    let held = turns.try_take(&mut other, 1).expect(&rt, "the turn is in");
    let mut passes = Vec::with_capacity(rt.alloc(), 1)?;
    passes.push_reserved(one);
    let Err(back) = turns.close(rt.alloc(), passes) else {
        panic!(rt; "it was closed");
    };
    assert!(rt; back.why == CloseWhy::Busy { part: 1 } && back.passes.len() == 1);
    assert!(rt; held.count == 0);
    Ok(())
}

// Each thread appends an event of a node of its own, and says whether it did.
fn append_two<R: Threads + Sync>(
    rt: &R,
    turns: &Turns<Tally>,
    one: Pass,
    other: Pass,
) -> (bool, bool)
    requires passes { IsOf turns.now one × IsOf turns.now other }
    requires two { part_count turns.now ≡ 2 }
{
    join(
        rt,
        move || -> bool
            requires { IsOf turns.now one × (part_count turns.now ≡ 2) }
        {
            let mut one = one;
            append_counted(turns, &mut one, 0, &Event::Collect { node: 0 }).is_ok()
        },
        move || -> bool
            requires { IsOf turns.now other × (part_count turns.now ≡ 2) }
        {
            let mut other = other;
            append_counted(turns, &mut other, 1, &Event::Collect { node: 1 }).is_ok()
        },
    )
}

#[test]
fn two_threads_append(rt: HostRuntime) -> Result<(), Fail> {
    let (turns, mut pass) = two(rt.alloc())?;
    let one = turns.split(&mut pass);
    let other = turns.split(&mut pass);
    let (first, second) = append_two(&rt, &turns, one, other);
    let events = turns.seen(&mut pass);
    assert!(rt; first || second);
    assert!(rt; events == first as u64 + second as u64);
    Ok(())
}
