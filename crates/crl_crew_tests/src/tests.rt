use crate::playing::play;
use crl_crew::{Gate, NoGate};
use crl_model::NodeNo;
use crl_model::report::Report;
use crl_script::read_script;
use std::alloc::Global;
use std::sync::Wait;
use std::sync::atomic::{AtomicBool, AtomicU64, Ordering};
use std::test::Fail;
use std::thread;
use std::thread::Threads;

/// The report of a script's run by so many workers, 1 to 16.
fn played<G: Gate + Sync, R: Threads + Wait + Sync>(
    rt: &R,
    alloc: Global,
    script: &str,
    workers: u16,
    gate: &G,
) -> Option<Report> {
    let text = script.as_bytes();
    if text.len() >= 1_000_000 || workers == 0 || workers > 16 {
        return None;
    }
    let script = read_script(alloc, text).ok()?;
    play(rt, alloc, &script, workers, gate)
}

/// Each node adds to one counter twice.
const COUNTER: &str = "\
nodes 4
node 0
create c 8
barrier
map c
write c
add c 0 1
endwrite c
write c
add c 0 1
endwrite c
node 1
barrier
map c
write c
add c 0 1
endwrite c
write c
add c 0 1
endwrite c
node 2
barrier
map c
write c
add c 0 1
endwrite c
write c
add c 0 1
endwrite c
node 3
barrier
map c
write c
add c 0 1
endwrite c
write c
add c 0 1
endwrite c
";

/// The report has one region, which shows 8.
fn has_eight(report: &Report) -> bool {
    match report.regions.first() {
        Some(region) => {
            report.regions.len() == 1
                && region.bytes.as_slice() == [0, 0, 0, 0, 0, 0, 0, 8].as_slice()
        }
        None => false,
    }
}

// No write is lost, whoever drives which node.
#[test]
fn workers_raise_one_counter(rt: HostRuntime) -> Result<(), Fail> {
    for workers in [1, 2, 4, 9] {
        let Some(report) = played(&rt, rt.alloc(), COUNTER, workers, &NoGate) else {
            panic!(rt; "there is no report");
        };
        assert!(rt; has_eight(&report));
    }
    Ok(())
}

/// A gate that counts how often it was passed.
#[derive(Drop)]
struct Counted {
    passed: AtomicU64,
}

impl Gate for Counted {
    fn pass<R: Wait>(&self, _rt: &R, _node: NodeNo, _statement: usize) {
        self.passed.fetch_add(1, Ordering::SeqCst);
    }
}

// The gate is passed before each statement, once.
#[test]
fn each_statement_passes_the_gate(rt: HostRuntime) -> Result<(), Fail> {
    let gate = Counted {
        passed: AtomicU64::new(0),
    };
    assert!(rt; played(&rt, rt.alloc(), COUNTER, 3, &gate).is_some());
    assert_eq!(rt; gate.passed.load(Ordering::SeqCst), 33);
    Ok(())
}

// Nodes that wait for each other are stuck, and there is no report of regions.
#[test]
fn a_round_that_nobody_joins_is_stuck(rt: HostRuntime) -> Result<(), Fail> {
    let script = "nodes 2\nnode 0\nbarrier\n";
    assert!(rt; played(&rt, rt.alloc(), script, 2, &NoGate).is_none());
    Ok(())
}

/// Two nodes, each with a section of its own.
const OWN: &str = "\
nodes 2
node 0
create a 1
map a
write a
endwrite a
node 1
create b 1
map b
write b
endwrite b
";

/// How often a node looks for the other.
const LOOKS: u64 = 10_000_000;

/// A gate that a node passes to end its section only when both have come there.
#[derive(Drop)]
struct Meeting {
    came: AtomicU64,
    failed: AtomicBool,
}

impl Gate for Meeting {
    fn pass<R: Wait>(&self, _rt: &R, _node: NodeNo, statement: usize) {
        if statement != 3 {
            return;
        }
        self.came.fetch_add(1, Ordering::SeqCst);
        for _ in 0..LOOKS {
            if self.came.load(Ordering::SeqCst) >= 2 {
                return;
            }
            thread::yield_now();
        }
        self.failed.store(true, Ordering::SeqCst);
    }
}

// Two workers are inside sections of two nodes at once.
#[test]
fn two_workers_are_inside_at_once(rt: HostRuntime) -> Result<(), Fail> {
    let gate = Meeting {
        came: AtomicU64::new(0),
        failed: AtomicBool::new(false),
    };
    assert!(rt; played(&rt, rt.alloc(), OWN, 2, &gate).is_some());
    assert!(rt; !gate.failed.load(Ordering::SeqCst));
    assert_eq!(rt; gate.came.load(Ordering::SeqCst), 2);
    Ok(())
}
