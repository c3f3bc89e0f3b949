//! The longest texts and lines.

use crl_cases::trial::{answered, run, shown, words_of};
use crl_model::OutOfMemory;
use crl_model::bytes::Bytes;
use crl_outside::memory_source::SafeSource;
use std::alloc::Global;

/// The most bytes that a script may have.
const MOST: usize = 16_777_216;

/// The bytes of the region, which one line puts.
const LARGEST: usize = 65_536;

/// The answer of `order first` to these bytes.
fn answer_to(alloc: Global, script: Vec<u8>) -> Result<String, OutOfMemory> {
    let words = words_of(alloc, "order first", ' ')?;
    let mut source = SafeSource::new(Bytes::from_vec(script));
    let answer = run(alloc, words.as_slice(), &mut source, 400_000)?;
    shown(alloc, &answer)
}

/// Puts this piece so often at the end of the text.
fn push_often(text: &mut String, piece: &str, count: usize) -> Result<(), OutOfMemory> {
    for _ in 0..count {
        text.push_str(piece)?;
    }
    Ok(())
}

/// A script with the most bytes: the lines up to the puts have 44, each of 127 puts of a whole region has
/// 131,081, the last put, of 64,933 bytes, has 129,875, and the last line, which ends without a line feed,
/// has 10.
fn longest(alloc: Global) -> Result<String, OutOfMemory> {
    let mut script = String::from_str(alloc, "nodes 1\nnode 0\ncreate a 65536\nmap a\nwrite a\n")?;
    let mut put = String::from_str(alloc, "put a 0 ")?;
    push_often(&mut put, "5a", LARGEST)?;
    put.push('\n')?;
    push_often(&mut script, put.as_str(), 127)?;
    script.push_str("put a 0 ")?;
    push_often(&mut script, "c3", 64_933)?;
    script.push_str("\nendwrite a")?;
    Ok(script)
}

/// Its account.
fn longest_account(alloc: Global) -> Result<String, OutOfMemory> {
    let mut account = String::from_str(
        alloc,
        "0|\n0 create 0:1 65536\n0 map 0:1 65536\n0 startwrite 0:1\n0 write 0:1 ",
    )?;
    push_often(&mut account, "00", LARGEST)?;
    account.push(' ')?;
    push_often(&mut account, "c3", 64_933)?;
    push_often(&mut account, "5a", 603)?;
    account.push_str("\nregion 0:1 ")?;
    push_often(&mut account, "c3", 64_933)?;
    push_often(&mut account, "5a", 603)?;
    account.push_str("\nevents 4 messages 0\n")?;
    Ok(account)
}

// Behind its last line, the line feed, which changes nothing else, is the byte that is too many.
#[test]
fn the_longest_script_is_run(rt: HostRuntime) -> Result<(), OutOfMemory> {
    let mut script = longest(rt.alloc())?;
    assert_eq!(rt; script.len(), MOST);
    let wanted = longest_account(rt.alloc())?;
    let seen = answer_to(rt.alloc(), Vec::from_slice(rt.alloc(), script.as_bytes())?)?;
    assert!(rt; seen.as_str() == wanted.as_str());
    script.push('\n')?;
    let seen = answer_to(rt.alloc(), script.into_bytes())?;
    assert_eq!(rt; seen.as_str(), "2|\nbad script 0 TooLong\n");
    Ok(())
}

// Too many bytes are too long, whatever they are.
#[test]
fn line_feeds_are_counted(rt: HostRuntime) -> Result<(), OutOfMemory> {
    let cases = [
        (MOST, "2|\nbad script 1 NoNodes\n"),
        (MOST + 1, "2|\nbad script 0 TooLong\n"),
    ];
    for (len, wanted) in cases {
        let feeds = vec![in rt.alloc(); b'\n'; len]?;
        assert_eq!(rt;
            answer_to(rt.alloc(), feeds)?.as_str(),
            wanted,
            "of {len} line feeds"
        );
    }
    Ok(())
}

// A line has at most 140,000 bytes.
#[test]
fn long_lines_are_refused(rt: HostRuntime) -> Result<(), OutOfMemory> {
    for (front, piece) in [
        ("put a 0 ", "5a"),
        ("put a 0 5a", " "),
        ("map a", "a"),
        ("#", "0"),
    ] {
        let mut script = String::from_str(rt.alloc(), "nodes 1\nnode 0\n")?;
        script.push_str(front)?;
        push_often(&mut script, piece, 140_001)?;
        let seen = answered(rt.alloc(), "order first", script.as_bytes())?;
        assert_eq!(rt;
            seen.as_str(),
            "2|\nbad script 3 LineTooLong\n",
            "of {front}"
        );
    }
    Ok(())
}
