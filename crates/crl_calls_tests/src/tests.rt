ghost use Rattle.std.specs.Prelude.{◌<◌};
ghost use Rattle.crl_cluster.specs.Clusters.{node_count, IsOf};
ghost use Rattle.crl_calls.specs.Callers.{IsCallerOf};
ghost use Rattle.crl_calls_tests.specs.Callers.{AreCallersOf};

use crate::beside::{begin, collected};
use crate::callers::{Nodes, last_of, nodes_with};
use crate::handing::{hand, shows, write_first};
use crate::meeting::{Heard, meet};
use crl_calls::{
    CallFault, Caller, rgn_barrier, rgn_bcast_recv, rgn_bcast_send, rgn_create, rgn_delete,
    rgn_flush, rgn_map, rgn_reduce_sum, rgn_rid, rgn_size, rgn_unmap,
};
use crl_cluster::Pass;
use crl_model::OutOfMemory;
use crl_model::bytes::Bytes;
use crl_model::call::{Call, Refusal};
use crl_model::name::Name;
use std::alloc::Global;
use std::sync::Wait;
use std::test::Fail;
use std::thread::{Threads, join, map_vec};

// Two threads add to a region in turns, so many times each.
fn hand_both<R: Threads + Wait + Sync>(
    rt: &R,
    nodes: &Nodes,
    one: Caller,
    other: Caller,
    name: Name,
    times: u32,
) -> (bool, bool)
    requires callers { IsCallerOf nodes.now one × IsCallerOf nodes.now other }
{
    join(
        rt,
        move || -> bool
            requires { IsCallerOf nodes.now one }
        {
            let mut one = one;
            hand(rt, nodes, &mut one, name, 0, times).is_ok()
        },
        move || -> bool
            requires { IsCallerOf nodes.now other }
        {
            let mut other = other;
            hand(rt, nodes, &mut other, name, 1, times).is_ok()
        },
    )
}

#[test]
fn a_region_goes_to_and_fro(rt: HostRuntime) -> Result<(), Fail> {
    let (nodes, mut list) = nodes_with(rt.alloc(), 3)?;
    let mut home = last_of(&nodes, &mut list).expect(&rt, "a caller");
    let one = last_of(&nodes, &mut list).expect(&rt, "a caller");
    let other = last_of(&nodes, &mut list).expect(&rt, "a caller");
    let name = rgn_create(&rt, &nodes, &mut home, 1)?;
    let both = hand_both(&rt, &nodes, one, other, name, 100);
    assert!(rt; both == (true, true));
    rgn_map(&rt, &nodes, &mut home, name)?;
    assert!(rt; shows(&rt, &nodes, &mut home, name, &[200]) == Ok(true));
    Ok(())
}

#[test]
fn one_reads_what_it_wrote(rt: HostRuntime) -> Result<(), Fail> {
    let (nodes, mut list) = nodes_with(rt.alloc(), 1)?;
    let mut who = last_of(&nodes, &mut list).expect(&rt, "a caller");
    let name = rgn_create(&rt, &nodes, &mut who, 4)?;
    assert!(rt; name == Name::new(0, 1));
    rgn_map(&rt, &nodes, &mut who, name)?;
    assert!(rt; shows(&rt, &nodes, &mut who, name, &[0, 0, 0, 0]) == Ok(true));
    write_first(&rt, &nodes, &mut who, name, 42)?;
    assert!(rt; shows(&rt, &nodes, &mut who, name, &[42, 0, 0, 0]) == Ok(true));
    rgn_flush(&rt, &nodes, &mut who, name)?;
    assert!(rt; shows(&rt, &nodes, &mut who, name, &[42, 0, 0, 0]) == Ok(true));
    Ok(())
}

/// What each of eight callers hears that meet, where node 0 sends 9.
const HEARD: Heard = Heard {
    first: 9,
    sum: 28,
    least: 0,
    greatest: 7,
};

// Whether each caller hears that, in a thread of its own.
fn meet_all<R: Threads + Wait + Sync>(
    rt: &R,
    alloc: Global,
    nodes: &Nodes,
    list: Vec<Caller>,
) -> Result<Vec<bool>, OutOfMemory>
    requires { AreCallersOf nodes.now list.items }
{
    map_vec(
        rt,
        list,
        &move |who: Caller| -> bool
            requires { IsCallerOf nodes.now who }
        {
            let mut who = who;
            meet(rt, alloc, nodes, &mut who, 9) == Ok(HEARD)
        },
    )
}

#[test]
fn eight_meet(rt: HostRuntime) -> Result<(), Fail> {
    let (nodes, list) = nodes_with(rt.alloc(), 8)?;
    let met = meet_all(&rt, rt.alloc(), &nodes, list)?;
    assert_eq!(rt; met.len(), 8);
    assert!(rt; met.iter().all(|well| *well));
    Ok(())
}

#[test]
fn calls_are_refused(rt: HostRuntime) -> Result<(), Fail> {
    let (nodes, mut list) = nodes_with(rt.alloc(), 1)?;
    let mut who = last_of(&nodes, &mut list).expect(&rt, "a caller");
    let bad = rgn_create(&rt, &nodes, &mut who, 0);
    assert!(rt; bad == Err(CallFault::Refused(Refusal::BadSize)));
    let name = rgn_create(&rt, &nodes, &mut who, 4)?;
    let unmapped = rgn_flush(&rt, &nodes, &mut who, name);
    assert!(rt; unmapped == Err(CallFault::Refused(Refusal::NotMapped)));
    let mapped = rgn_map(&rt, &nodes, &mut who, name)?;
    assert!(rt; rgn_rid(&mapped) == name && rgn_size(&mapped) == 4);
    rgn_barrier(&rt, &nodes, &mut who)?;
    assert!(rt; rgn_reduce_sum(&rt, &nodes, &mut who, 5) == Ok(5));
    let bytes = Bytes::copy_of(rt.alloc(), &[1])?;
    rgn_bcast_send(&rt, &nodes, &mut who, bytes)?;
    let alone = rgn_bcast_recv(&rt, &nodes, &mut who);
    assert!(rt; alone == Err(CallFault::Refused(Refusal::Mixed)));
    rgn_unmap(&rt, &nodes, &mut who, name)?;
    rgn_delete(&rt, &nodes, &mut who, name)?;
    let deleted = rgn_map(&rt, &nodes, &mut who, name);
    assert!(rt; deleted == Err(CallFault::Refused(Refusal::Deleted)));
    Ok(())
}

// One thread calls by the caller of node 0, while another takes the answer for which that node still waits.
fn call_beside<R: Threads + Wait + Sync>(
    rt: &R,
    nodes: &Nodes,
    who: Caller,
    pass: Pass,
) -> (bool, Option<Refusal>)
    requires who { IsCallerOf nodes.now who }
    requires pass { IsOf nodes.now pass × (0 < node_count nodes.now) }
{
    join(
        rt,
        move || -> bool
            requires { IsCallerOf nodes.now who }
        {
            let mut who = who;
            rgn_create(rt, nodes, &mut who, 4).is_ok()
        },
        move || -> Option<Refusal>
            requires { IsOf nodes.now pass × (0 < node_count nodes.now) }
        {
            let mut pass = pass;
            collected(rt, nodes, &mut pass, 0)
        },
    )
}

#[test]
fn another_pass_uses_the_node(rt: HostRuntime) -> Result<(), Fail> {
    let (nodes, mut list) = nodes_with(rt.alloc(), 2)?;
    let other = last_of(&nodes, &mut list).expect(&rt, "a caller");
    let who = last_of(&nodes, &mut list).expect(&rt, "a caller");
    let mut pass = other.into_pass();
    let name = Name::new(1, 1);
    assert!(rt; begin(&nodes, &mut pass, 0, Call::Map { name }));
    let (created, refused) = call_beside(&rt, &nodes, who, pass);
    assert!(rt; created);
    assert!(rt; refused == Some(Refusal::Unknown));
    Ok(())
}
