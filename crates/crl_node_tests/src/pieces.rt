//! Messages in pieces, and many nodes.
ghost use Rattle.std.specs.Prelude.{◌≡◌};

use crate::scripts::report_of;
use crl_model::OutOfMemory;
use crl_model::entry::{Entry, What};
use crl_model::report::Report;
use crl_order::Order;
use std::alloc::Global;
use std::fmt::Write;
use std::test::Fail;

/// Node 1 writes the last byte of a region of two pieces, and flushes it.
const TWO_PIECES: &str = "\
nodes 2
node 0
create a 32769
node 1
map a
write a
put a 32768 07
endwrite a
flush a
";

/// Whether the bytes are the region's zeros, but for the last one.
fn ends_in(bytes: &[u8], last: u8) -> bool {
    let Some((end, zeros)) = bytes.split_last() else {
        return false;
    };
    zeros.len() == 32_768 && zeros.iter().all(|byte| *byte == 0) && *end == last
}

/// Whether the entry is of the write section that changed the last byte.
fn is_the_write(entry: &Entry) -> bool {
    match &entry.what {
        What::Write { before, after, .. } => {
            ends_in(before.as_slice(), 0) && ends_in(after.as_slice(), 7)
        }
        _ => false,
    }
}

// The pieces of the grant come in their order, or the second one first; the region goes back in pieces too.
#[test]
fn a_grant_in_two_pieces(rt: HostRuntime) -> Result<(), Fail> {
    let mut words: Vec<u32> = vec![in rt.alloc(); 0; 10]?;
    words.push(1)?;
    for order in [Order::First, Order::picks(rt.alloc(), words.as_slice())?] {
        let report = report_of(rt.alloc(), TWO_PIECES, order);
        let report = report.expect(&rt, "the run has a report");
        assert!(rt; report.entries.len() == 5 && is_the_write(&report.entries[3]));
        assert!(rt; report.regions.len() == 1 && ends_in(report.regions[0].bytes.as_slice(), 7));
        assert!(rt; report.events == 21 && report.messages == 7);
    }
    Ok(())
}

/// Each of 64 nodes adds 1 to one of two regions of the first one.
fn counters(alloc: Global) -> Result<String, OutOfMemory> {
    let mut text = String::from_str(alloc, "nodes 64\n")?;
    for node in 0..64u32 {
        let label = if node % 2 == 0 { "a" } else { "b" };
        let create = if node == 0 {
            "create a 1\ncreate b 1\n"
        } else {
            ""
        };
        write!(
            text,
            "node {node}\n{create}barrier\nmap {label}\nwrite {label}\nput {label} 0 01\nendwrite {label}\n"
        )?;
    }
    Ok(text)
}

/// How many write sections ended.
fn writes_in(report: &Report) -> usize {
    let mut writes = 0;
    for entry in &report.entries {
        if matches!(&entry.what, What::Write { .. }) && writes < 1_000 {
            writes += 1;
        }
    }
    writes
}

// Whoever asks gets a section.
#[test]
fn no_ask_of_64_nodes_is_lost(rt: HostRuntime) -> Result<(), Fail> {
    let script = counters(rt.alloc())?;
    for seed in 0..3 {
        let report = report_of(rt.alloc(), script.as_str(), Order::seed(seed));
        let report = report.expect(&rt, "the run isn't stuck");
        assert_eq!(rt; writes_in(&report), 64, "with the seed {seed}");
    }
    Ok(())
}
