//! Sources and sinks that fail, at each place where they can.

use crl_cases::trial::{Answer, ROOM, run, shown, words_of};
use crl_cli::status::Status;
use crl_model::OutOfMemory;
use crl_model::bytes::Bytes;
use crl_outside::memory_source::MemorySource;
use std::alloc::Global;

/// A script of two nodes that share a region. It has 80 bytes.
const SCRIPT: &str = "\
nodes 2
node 0
create a 4
barrier
node 1
barrier
map a
read a
endread a
unmap a
";

/// Its account.
const ACCOUNT: &str = "\
0 create 0:1 4
0 come barrier
1 come barrier
0 barrier 1
1 barrier 1
1 map 0:1 4
1 startread 0:1
1 read 0:1 00000000
1 unmap 0:1
region 0:1 00000000
events 23 messages 6
";

/// The most bytes that a pull gives here, where a test doesn't say otherwise.
const STEP: usize = 8;

/// How many pulls take the whole script: ten give 8 bytes each, and one more finds the end.
const PULLS: u64 = 11;

/// The run of a text with these words, from a source whose pulls give so many bytes, and of which one fails.
fn faulty(
    alloc: Global,
    line: &str,
    text: &str,
    step: usize,
    failing: u64,
    room: usize,
) -> Result<Answer, OutOfMemory> {
    let words = words_of(alloc, line, ' ')?;
    let mut pulls = Vec::new(alloc);
    pulls.push(failing)?;
    let bytes = Bytes::copy_of(alloc, text.as_bytes())?;
    let mut source = MemorySource::new(bytes, step.max(1), pulls);
    run(alloc, words.as_slice(), &mut source, room)
}

// Also where the text of the fault can't be printed. The first pull past the end would fail too, and isn't made.
#[test]
fn each_failing_pull_is_a_read_fault(rt: HostRuntime) -> Result<(), OutOfMemory> {
    let whole = format!(in rt.alloc(); "0|\n{ACCOUNT}")?;
    for pull in 1..PULLS + 2 {
        let (read, nothing) = if pull > PULLS {
            (whole.as_str(), "5|\n")
        } else {
            ("4|\nread fault\n", "5|\n")
        };
        for (room, wanted) in [(ROOM, read), (0, nothing)] {
            let answer = faulty(rt.alloc(), "order first", SCRIPT, STEP, pull, room)?;
            assert_eq!(rt;
                shown(rt.alloc(), &answer)?.as_str(),
                wanted,
                "at pull {pull}"
            );
        }
    }
    Ok(())
}

// However few bytes a pull gives.
#[test]
fn a_slow_source_gives_the_same(rt: HostRuntime) -> Result<(), OutOfMemory> {
    for step in 1..SCRIPT.len() {
        let answer = faulty(rt.alloc(), "order first", SCRIPT, step, 0, ROOM)?;
        assert_eq!(rt; answer.status, Status::Ok, "by steps of {step}");
        assert_eq!(rt;
            answer.sink.held(),
            ACCOUNT.as_bytes(),
            "by steps of {step}"
        );
    }
    Ok(())
}

// A sink that is full before the text's end holds the text's first bytes, and no other text. One in which it fits
// exactly holds it. Each text can fail to be printed so: an account, a stuck one, and what stands in its place.
#[test]
fn each_full_sink_holds_the_first_bytes(rt: HostRuntime) -> Result<(), OutOfMemory> {
    let cases = [
        ("order first", SCRIPT, Status::Ok, ACCOUNT),
        (
            "order first",
            "nodes 2\nnode 0\nbarrier",
            Status::Stuck,
            "0 come barrier\nstuck 0 round 1 without 1\nevents 1 messages 0\n",
        ),
        (
            "order first",
            "",
            Status::BadScript,
            "bad script 1 NoNodes\n",
        ),
        ("order", "", Status::Usage, "usage: crl COMMAND\n"),
        (
            "check 1",
            "1 create 1:1 1\n",
            Status::Illegal,
            "illegal 1\n",
        ),
        ("check 1", "\n", Status::BadAccount, "bad account 1\n"),
        ("check 1", "", Status::Ok, "legal\n"),
    ];
    for (line, script, status, text) in cases {
        for room in 0..text.len() + 1 {
            let answer = faulty(rt.alloc(), line, script, ROOM, 0, room)?;
            let wanted = if room < text.len() {
                Status::WriteFault
            } else {
                status
            };
            assert_eq!(rt;
                answer.status,
                wanted,
                "of {script} with room for {room} bytes"
            );
            assert_eq!(rt; answer.sink.held(), &text.as_bytes()[..room]);
        }
    }
    Ok(())
}
