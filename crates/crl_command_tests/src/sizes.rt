//! Runs that are large: of many statements, of the most nodes, and of regions in several pieces.

use crl_cases::trial::answered;
use crl_model::OutOfMemory;
use std::alloc::Global;
use std::ops::Range;

/// Puts this piece so often at the end of the text.
fn push_often(text: &mut String, piece: &str, count: usize) -> Result<(), OutOfMemory> {
    for _ in 0..count {
        text.push_str(piece)?;
    }
    Ok(())
}

/// For each number below a count, this and that text with the number between them.
fn numbered(
    alloc: Global,
    front: &str,
    numbers: Range<u32>,
    back: &str,
) -> Result<String, OutOfMemory> {
    let mut text = String::new(alloc);
    for number in numbers {
        let line = format!(in alloc; "{front}{number}{back}")?;
        text.push_str(line.as_str())?;
    }
    Ok(text)
}

// A sum of 64 nodes needs more than 64 bits.
#[test]
fn sums_are_of_128_bits(rt: HostRuntime) -> Result<(), OutOfMemory> {
    let alloc = rt.alloc();
    let blocks = numbered(alloc, "node ", 0..64, "\nsum 9223372036854775807\n")?;
    let come = numbered(alloc, "", 0..64, " come sum 9223372036854775807\n")?;
    let sums = numbered(alloc, "", 0..64, " sum 1 590295810358705651648\n")?;
    let script = format!(in alloc; "nodes 64\n{blocks}")?;
    let wanted = format!(in alloc; "0|\n{come}{sums}events 380 messages 126\n")?;
    assert_eq!(rt;
        answered(alloc, "order first", script.as_bytes())?.as_str(),
        wanted.as_str()
    );
    Ok(())
}

// A region of 32,769 bytes goes from node to node in two pieces, which may come in any order.
#[test]
fn regions_go_in_pieces(rt: HostRuntime) -> Result<(), OutOfMemory> {
    let alloc = rt.alloc();
    let script =
        "nodes 2\nnode 0\ncreate a 32769\nnode 1\nmap a\nwrite a\nput a 32768 07\nendwrite a\nflush a\n";
    let mut front = String::new(alloc);
    push_often(&mut front, "00", 32_768)?;
    let wanted = format!(in alloc;
        "\
0|
0 create 0:1 32769
1 map 0:1 32769
1 startwrite 0:1
1 write 0:1 {front}00 {front}07
1 flush 0:1
region 0:1 {front}07
events 21 messages 7
"
    )?;
    for words in ["order first", "order picks 0*10,1"] {
        let seen = answered(alloc, words, script.as_bytes())?;
        assert!(rt; seen.as_str() == wanted.as_str(), "of {words}");
    }
    Ok(())
}

// A region has 1 to 16,777,216 bytes. The one of 16 MiB is deleted, so that the account is short.
#[test]
fn regions_have_all_their_sizes(rt: HostRuntime) -> Result<(), OutOfMemory> {
    let alloc = rt.alloc();
    let script =
        "nodes 1\nnode 0\ncreate a 1\ncreate b 65536\ncreate c 0\ncreate d 65537\ncreate e 16777216\ndelete e\n";
    let mut zeros = String::new(alloc);
    push_often(&mut zeros, "00", 65_536)?;
    let wanted = format!(in alloc;
        "\
0|
0 create 0:1 1
0 create 0:2 65536
0 refused create 0:3 BadSize
0 create 0:4 65537
0 create 0:5 16777216
0 deleting 0:5
0 deleted 0:5
region 0:1 00
region 0:2 {zeros}
region 0:4 {zeros}00
events 6 messages 0
"
    )?;
    let seen = answered(alloc, "order first", script.as_bytes())?;
    assert!(rt; seen.as_str() == wanted.as_str());
    Ok(())
}

// A broadcast has at most 65,536 bytes.
#[test]
fn broadcasts_have_a_largest_size(rt: HostRuntime) -> Result<(), OutOfMemory> {
    let alloc = rt.alloc();
    let mut sent = String::new(alloc);
    push_often(&mut sent, "5a", 65_536)?;
    let script = format!(in alloc; "nodes 1\nnode 0\nsend {sent}5a\nsend {sent}\n")?;
    let wanted = format!(in alloc;
        "0|\n0 refused send 1 WrongSize\n0 come send {sent}\n0 broadcast 1 {sent}\nevents 2 messages 0\n"
    )?;
    let seen = answered(alloc, "order first", script.as_bytes())?;
    assert!(rt; seen.as_str() == wanted.as_str());
    Ok(())
}

// As many regions as the serials of 16 bits would name.
#[test]
fn many_creates_are_run(rt: HostRuntime) -> Result<(), OutOfMemory> {
    let alloc = rt.alloc();
    let creates = numbered(alloc, "create r", 1..65_536, " 1\n")?;
    let created = numbered(alloc, "0 create 0:", 1..65_536, " 1\n")?;
    let regions = numbered(alloc, "region 0:", 1..65_536, " 00\n")?;
    let script = format!(in alloc; "nodes 1\nnode 0\n{creates}")?;
    let wanted = format!(in alloc; "0|\n{created}{regions}events 65535 messages 0\n")?;
    let seen = answered(alloc, "order first", script.as_bytes())?;
    assert!(rt; seen.as_str() == wanted.as_str());
    Ok(())
}
