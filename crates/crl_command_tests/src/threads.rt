//! `threads`: scripts that several threads run.

use crl_cases::trial::{Answer, ROOM, answered, shown, words_of};
use crl_cli::answer::top;
use crl_crew::{Gate, NoGate};
use crl_model::bytes::Bytes;
use crl_model::{NodeNo, OutOfMemory};
use crl_outside::memory_sink::MemorySink;
use crl_outside::memory_source::SafeSource;
use std::alloc::Global;
use std::sync::Wait;
use std::sync::atomic::{AtomicBool, AtomicU64, Ordering};
use std::thread::{self, Threads};

/// What the program's own call gives for the words of a line and this input.
fn given<R: Threads + Wait + Sync, G: Gate + Sync>(
    rt: &R,
    alloc: Global,
    line: &str,
    input: &str,
    gate: &G,
) -> Result<String, OutOfMemory> {
    let words = words_of(alloc, line, ' ')?;
    let mut source = SafeSource::new(Bytes::copy_of(alloc, input.as_bytes())?);
    let mut sink = MemorySink::new(alloc, ROOM)?;
    let status = top(rt, alloc, words.as_slice(), &mut source, &mut sink, gate);
    shown(alloc, &Answer { status, sink })
}

/// Eight nodes that each add 1 to one counter, a hundred times.
fn counter_script(alloc: Global) -> Result<String, OutOfMemory> {
    let mut script = String::from_str(alloc, "nodes 8\n")?;
    for node in 0..8 {
        let first = if node == 0 { "create c 8\n" } else { "" };
        let head = format!(in alloc; "node {node}\n{first}barrier\nmap c\n")?;
        script.push_str(head.as_str())?;
        for _ in 0..100 {
            script.push_str("write c\nadd c 0 1\nendwrite c\n")?;
        }
        script.push_str("unmap c\n")?;
    }
    Ok(script)
}

/// The lines of entries, each of which begins with a digit.
fn entries_in(account: &str) -> usize {
    account
        .lines()
        .filter(|line| line.starts_with(|c: char| c.is_ascii_digit()))
        .count()
}

#[test]
fn threads_share_a_counter(rt: HostRuntime) -> Result<(), OutOfMemory> {
    let script = counter_script(rt.alloc())?;
    for line in ["threads 4", "order seed 7"] {
        let answer = given(&rt, rt.alloc(), line, script.as_str(), &NoGate)?;
        let account = answer.as_str().strip_prefix("0|\n").unwrap_or("");
        assert_eq!(rt; entries_in(account), 1633);
        assert!(rt; account.contains("\nregion 0:1 0000000000000320\nevents "));
        let judged = answered(rt.alloc(), "check 8", account.as_bytes())?;
        assert_eq!(rt; judged.as_str(), "0|\nlegal\n");
    }
    Ok(())
}

#[test]
fn threads_have_words(rt: HostRuntime) -> Result<(), OutOfMemory> {
    let usage = "1|\nusage: crl COMMAND\n";
    let lines = [
        "threads",
        "threads 0",
        "threads 17",
        "threads four",
        "threads 2 2",
    ];
    for line in lines {
        let answer = given(&rt, rt.alloc(), line, "nodes 1", &NoGate)?;
        assert_eq!(rt; answer.as_str(), usage);
    }
    // A call that waits for nobody has no threads.
    assert_eq!(rt;
        answered(rt.alloc(), "threads 4", b"nodes 1")?.as_str(),
        usage
    );
    Ok(())
}

#[test]
fn threads_have_statuses(rt: HostRuntime) -> Result<(), OutOfMemory> {
    let cases = [
        ("nodes 1", "0|\nevents 0 messages 0\n"),
        ("nodes 1\nnode 0\ncrea", "2|\nbad script 3 BadWord\n"),
        (
            "nodes 2\nnode 0\nbarrier",
            "3|\n0 come barrier\nstuck 0 round 1 without 1\nevents 1 messages 0\n",
        ),
    ];
    for (script, wanted) in cases {
        for line in ["threads 1", "threads 16"] {
            let answer = given(&rt, rt.alloc(), line, script, &NoGate)?;
            assert_eq!(rt; answer.as_str(), wanted);
        }
    }
    Ok(())
}

/// The place of the `endwrite` in each node's statements of `own_regions`.
const ENDWRITE: usize = 3;

/// How often a node looks for the others.
const LOOKS: u64 = 10_000_000;

/// A gate that each node passes before its `endwrite` only when so many nodes have come to theirs.
#[derive(Drop)]
struct Meeting {
    nodes: u64,
    came: AtomicU64,
    failed: AtomicBool,
}

impl Gate for Meeting {
    fn pass<R: Wait>(&self, _rt: &R, _node: NodeNo, statement: usize) {
        if statement != ENDWRITE {
            return;
        }
        self.came.fetch_add(1, Ordering::SeqCst);
        for _ in 0..LOOKS {
            if self.came.load(Ordering::SeqCst) >= self.nodes {
                return;
            }
            thread::yield_now();
        }
        self.failed.store(true, Ordering::SeqCst);
    }
}

/// So many nodes that each write a region of their own.
fn own_regions(alloc: Global, nodes: u64) -> Result<String, OutOfMemory> {
    let mut script = format!(in alloc; "nodes {nodes}\n")?;
    for i in 0..nodes {
        let block = format!(in alloc;
            "node {i}\ncreate r{i} 4\nmap r{i}\nwrite r{i}\nendwrite r{i}\n"
        )?;
        script.push_str(block.as_str())?;
    }
    Ok(script)
}

// Workers that ran one after another would wait for each other in vain: this shows that they are inside their sections at
// once, which no clause says.
#[test]
fn threads_are_inside_at_once(rt: HostRuntime) -> Result<(), OutOfMemory> {
    for nodes in [2, 4] {
        let meeting = Meeting {
            nodes,
            came: AtomicU64::new(0),
            failed: AtomicBool::new(false),
        };
        let script = own_regions(rt.alloc(), nodes)?;
        let line = format!(in rt.alloc(); "threads {nodes}")?;
        let answer = given(&rt, rt.alloc(), line.as_str(), script.as_str(), &meeting)?;
        assert!(rt; answer.as_str().starts_with("0|\n"));
        assert!(rt; !meeting.failed.load(Ordering::SeqCst));
        assert_eq!(rt; meeting.came.load(Ordering::SeqCst), nodes);
    }
    Ok(())
}
