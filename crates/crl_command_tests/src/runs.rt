//! Runs of scripts, each with its account.

use crate::copies::COPIES;
use crate::ends::{DELETES, ROUNDS, STUCK};
use crate::orders::ORDERS;
use crate::refusals::REFUSALS;
use crate::sections::SECTIONS;
use crl_cases::page::{first_wrong, without_feed};
use crl_cases::trial::{ROOM, answered, words_of};
use crl_cli::answer::top;
use crl_cli::status::Status;
use crl_crew::NoGate;
use crl_model::OutOfMemory;
use crl_model::bytes::Bytes;
use crl_outside::memory_sink::{MemorySink, NullSink};
use crl_outside::memory_source::SafeSource;
use std::alloc::Global;
use std::test::Fail;

// With ample memory each answer comes: a program that always answered want of memory would meet its contract, and
// fails here.
#[test]
fn scripts_have_their_accounts(rt: HostRuntime) -> Result<(), OutOfMemory> {
    for page in [SECTIONS, REFUSALS, ORDERS, COPIES, DELETES, ROUNDS, STUCK] {
        assert_eq!(rt; first_wrong(rt.alloc(), page)?.as_str(), "");
    }
    Ok(())
}

/// What `check` says of the account of a case, with the number of nodes that its script has: its second word.
fn judged(alloc: Global, case: &str) -> Result<String, OutOfMemory> {
    let parts = case.split('|').collect::<Vec<&str>>(alloc)?;
    let [_, _, script, _, account] = parts.as_slice() else {
        return String::from_str(alloc, "a case has five parts");
    };
    let words = script.split_whitespace().collect::<Vec<&str>>(alloc)?;
    let [_, nodes, ..] = words.as_slice() else {
        return String::from_str(alloc, "a script has two words");
    };
    let line = format!(in alloc; "check {nodes}")?;
    answered(alloc, line.as_str(), without_feed(account).as_bytes())
}

// What a run prints is a legal account, also where it is stuck.
#[test]
fn accounts_are_legal(rt: HostRuntime) -> Result<(), OutOfMemory> {
    for page in [SECTIONS, REFUSALS, ORDERS, COPIES, DELETES, ROUNDS, STUCK] {
        for case in page.split('%') {
            assert_eq!(rt;
                judged(rt.alloc(), case)?.as_str(),
                "0|\nlegal\n",
                "of {case}"
            );
        }
    }
    Ok(())
}

// The program's own call, twice into one sink, and into a sink that keeps nothing.
#[test]
fn the_program_prints_behind_what_was_printed(rt: HostRuntime) -> Result<(), Fail> {
    let words = words_of(rt.alloc(), "order first", ' ')?;
    let mut sink = MemorySink::new(rt.alloc(), ROOM)?;
    for script in ["nodes 1", "nodes 2\nnode 1\ncreate a 1"] {
        let mut source = SafeSource::new(Bytes::copy_of(rt.alloc(), script.as_bytes())?);
        let status = top(
            &rt,
            rt.alloc(),
            words.as_slice(),
            &mut source,
            &mut sink,
            &NoGate,
        );
        assert_eq!(rt; status, Status::Ok);
        let mut source = SafeSource::new(Bytes::copy_of(rt.alloc(), script.as_bytes())?);
        let status = top(
            &rt,
            rt.alloc(),
            words.as_slice(),
            &mut source,
            &mut NullSink,
            &NoGate,
        );
        assert_eq!(rt; status, Status::Ok);
    }
    assert_eq!(rt;
        str::from_utf8(sink.held())?,
        "events 0 messages 0\n1 create 1:1 1\nregion 1:1 00\nevents 1 messages 0\n"
    );
    Ok(())
}
