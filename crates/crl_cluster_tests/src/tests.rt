ghost use Rattle.std.specs.Prelude.{◌≡◌, ◌<◌, IfOk};
ghost use Rattle.crl_cluster.specs.Clusters.{node_count, IsOf};

use crate::making::{Nodes, create, make, name_of};
use crl_cluster::{Busy, CloseWhy, Closed, Cluster, NotClosed, Pass, TryFault};
use crl_model::NodeNo;
use crl_model::activity::Answer;
use crl_model::call::Call;
use crl_model::name::Name;
use crl_node::Node;
use crl_world::StartFault;
use std::alloc::Global;
use std::test::Fail;
use std::thread::{Threads, join};

fn two(alloc: Global) -> Result<(Nodes, Pass), Fail>
    ensures { IfOk result (λ r. (node_count r.0 ≡ 2) × IsOf r.0 r.1) }
{
    match Cluster::start(alloc, 2, 4) {
        Ok(started) => Ok(started),
        Err(why) => Err(Fail::from(why)),
    }
}

/// The fault of a start of so many nodes, if it has one.
fn start_fault(alloc: Global, count: NodeNo) -> Option<StartFault> {
    let started: Result<(Nodes, Pass), StartFault> = Cluster::start(alloc, count, 16);
    match started {
        Ok((nodes, pass)) => {
            drop(nodes);
            drop(pass);
            None
        }
        Err(why) => Some(why),
    }
}

/// The number of events of nodes that were closed, or why they weren't. Nodes and luggage are let go.
fn events_of(closed: Result<Closed<Node, ()>, NotClosed<Node, ()>>) -> Result<u64, CloseWhy> {
    match closed {
        Ok(Closed { world, luggage: _ }) => Ok(world.events()),
        Err(
            NotClosed {
                cluster: _,
                pass: _,
                why,
            },
        ) => Err(why),
    }
}

/// The name and size of a region that the node has mapped, if that is the answer for which it waited. It is let go.
fn mapped(nodes: &Nodes, pass: &mut Pass, node: NodeNo) -> Result<Option<(Name, u32)>, TryFault>
    requires here { IsOf nodes.now pass.old }
    requires node { node < node_count nodes.now }
    ensures here { IsOf nodes.now pass.new }
{
    match nodes.try_collect(pass, node) {
        Ok(Answer::Mapped { name, size }) => Ok(Some((name, size))),
        Ok(other) => {
            let _ = name_of(other);
            Ok(None)
        }
        Err(why) => Err(why),
    }
}

#[test]
fn nodes_are_1_to_64(rt: HostRuntime) -> Result<(), Fail> {
    assert!(rt; start_fault(rt.alloc(), 0) == Some(StartFault::BadNodes));
    assert!(rt; start_fault(rt.alloc(), 65) == Some(StartFault::BadNodes));
    assert!(rt; start_fault(rt.alloc(), 1) == None && start_fault(rt.alloc(), 64) == None);
    Ok(())
}

// Node 1 maps a region of node 0, by an ask and its answer. Then the nodes are a world.
#[test]
fn a_region_is_mapped(rt: HostRuntime) -> Result<(), Fail> {
    let (nodes, mut pass) = two(rt.alloc())?;
    let name = Name::new(0, 1);
    let made = make(&nodes, &mut pass, 0, Call::Create { size: 8 });
    assert!(rt; made == Ok(Some(name)));
    assert!(rt; mapped(&nodes, &mut pass, 0) == Err(TryFault::Nothing));
    assert!(rt; nodes.try_handle(&mut pass, 0, 0) == Err(TryFault::Nothing));
    assert!(rt; nodes.try_carry(&mut pass, 0, 0) == Err(TryFault::Nothing));
    let asked = make(&nodes, &mut pass, 1, Call::Map { name });
    assert!(rt; asked == Ok(None));
    assert!(rt; nodes.try_carry(&mut pass, 1, 0).is_ok());
    assert!(rt; nodes.try_handle(&mut pass, 0, 0).is_ok());
    assert!(rt; nodes.try_carry(&mut pass, 0, 0).is_ok());
    assert!(rt; nodes.try_handle(&mut pass, 1, 0).is_ok());
    assert!(rt; mapped(&nodes, &mut pass, 1) == Ok(Some((name, 8))));
    assert!(rt; nodes.seen(&mut pass) == 7);
    let last = nodes.split(&mut pass);
    assert!(rt; events_of(nodes.close(rt.alloc(), last)) == Ok(7));
    Ok(())
}

// A node that is held is busy for another pass, and while it is, the nodes stay behind their turns.
#[test]
fn a_held_node_is_busy(rt: HostRuntime) -> Result<(), Fail> {
    let (nodes, mut one) = two(rt.alloc())?;
    let mut other = nodes.split(&mut one);
    let held = nodes.hold(&mut one, 1).expect(&rt, "the turn is in");
    assert!(rt;
        nodes
            .hold(&mut other, 1)
            .is_err_and(|why| why == Busy { node: 1 })
    );
    let made = make(&nodes, &mut other, 1, Call::Create { size: 8 });
    assert!(rt; made == Err(TryFault::Busy { node: 1 }));
    let made = make(&nodes, &mut other, 0, Call::Create { size: 8 });
    assert!(rt; made == Ok(Some(Name::new(0, 1))));
    nodes.release(&mut one, held);
    let made = make(&nodes, &mut other, 1, Call::Create { size: 8 });
    assert!(rt; made == Ok(Some(Name::new(1, 1))));
    Ok(())
}

#[test]
fn nodes_stay_while_one_is_held(rt: HostRuntime) -> Result<(), Fail> {
    let (nodes, mut one) = two(rt.alloc())?;
    let first = nodes.hold(&mut one, 0).expect(&rt, "the turn is in");
    let mut other = nodes.split(&mut one);
    let second = nodes.hold(&mut other, 1).expect(&rt, "the turn is in");
    assert!(rt; second.number() == 1);
    nodes.release(&mut other, second);
    let last = nodes.split(&mut one);
    match nodes.close(rt.alloc(), last) {
        Ok(Closed { world, luggage }) => {
            drop(world);
            drop(luggage);
            drop(first);
            panic!(rt; "it was closed");
        }
        Err(NotClosed { cluster, pass, why }) => {
            assert!(rt; why == CloseWhy::Busy { part: 0 });
            cluster.release(&mut one, first);
            assert!(rt; events_of(cluster.close(rt.alloc(), pass)) == Ok(0));
        }
    }
    Ok(())
}

// Each thread has a node of its own create a region.
fn create_two<R: Threads + Sync>(
    rt: &R,
    nodes: &Nodes,
    one: Pass,
    other: Pass,
) -> (Option<Name>, Option<Name>)
    requires passes { IsOf nodes.now one × IsOf nodes.now other }
    requires two { node_count nodes.now ≡ 2 }
{
    join(
        rt,
        move || -> Option<Name>
            requires { IsOf nodes.now one × (node_count nodes.now ≡ 2) }
        {
            let mut one = one;
            create(nodes, &mut one, 0)
        },
        move || -> Option<Name>
            requires { IsOf nodes.now other × (node_count nodes.now ≡ 2) }
        {
            let mut other = other;
            create(nodes, &mut other, 1)
        },
    )
}

#[test]
fn two_threads_create(rt: HostRuntime) -> Result<(), Fail> {
    let (nodes, mut pass) = two(rt.alloc())?;
    let one = nodes.split(&mut pass);
    let other = nodes.split(&mut pass);
    let (first, second) = create_two(&rt, &nodes, one, other);
    assert!(rt; first == Some(Name::new(0, 1)) && second == Some(Name::new(1, 1)));
    assert!(rt; nodes.seen(&mut pass) == 2);
    Ok(())
}
