//! Scripts that are cut after each of their bytes.

use crl_cases::page::without_feed;
use crl_cases::trial::answered;
use crl_model::OutOfMemory;
use std::alloc::Global;

/// A script of one node. A line; a mark for what a cut after each byte of it leaves; the exit status and the account of
/// a script of this line and those before it. Marks: `+` such a script, as the line is whole but for its line feed, or
/// with it; `n` no first word `nodes` (NoNodes), `w` an unknown word or too few (BadWord), `h` half a byte (BadHex).
const ALONE: &str = "\
nodes 1
|nnnnww++|0|
events 0 messages 0
%
node 0
|wwwww++|0|
events 0 messages 0
%
create a 4
|wwwwwwwww++|0|
0 create 0:1 4
region 0:1 00000000
events 1 messages 0
%
map a
|wwww++|0|
0 create 0:1 4
0 map 0:1 4
region 0:1 00000000
events 2 messages 0
%
write a
|wwwwww++|0|
0 create 0:1 4
0 map 0:1 4
0 startwrite 0:1
region 0:1 00000000
events 3 messages 0
%
put a 0 2a
|wwwwwwwwh++|0|
0 create 0:1 4
0 map 0:1 4
0 startwrite 0:1
region 0:1 00000000
events 3 messages 0
%
endwrite a
|wwwwwwwww++|0|
0 create 0:1 4
0 map 0:1 4
0 startwrite 0:1
0 write 0:1 00000000 2a000000
region 0:1 2a000000
events 4 messages 0
";

/// A script of two nodes. Where the second hasn't come to the round, the first waits for it.
const SHARED: &str = "\
nodes 2
|nnnnww++|0|
events 0 messages 0
%
node 0
|wwwww++|0|
events 0 messages 0
%
create a 1
|wwwwwwwww++|0|
0 create 0:1 1
region 0:1 00
events 1 messages 0
%
barrier
|wwwwww++|3|
0 create 0:1 1
0 come barrier
stuck 0 round 1 without 1
events 2 messages 0
%
node 1
|wwwww++|3|
0 create 0:1 1
0 come barrier
stuck 0 round 1 without 1
events 2 messages 0
%
barrier
|wwwwww++|0|
0 create 0:1 1
0 come barrier
1 come barrier
0 barrier 1
1 barrier 1
region 0:1 00
events 9 messages 2
%
map a
|wwww++|0|
0 create 0:1 1
0 come barrier
1 come barrier
0 barrier 1
1 barrier 1
1 map 0:1 1
region 0:1 00
events 15 messages 4
%
read a
|wwwww++|0|
0 create 0:1 1
0 come barrier
1 come barrier
0 barrier 1
1 barrier 1
1 map 0:1 1
1 startread 0:1
region 0:1 00
events 21 messages 6
%
endread a
|wwwwwwww++|0|
0 create 0:1 1
0 come barrier
1 come barrier
0 barrier 1
1 barrier 1
1 map 0:1 1
1 startread 0:1
1 read 0:1 00
region 0:1 00
events 22 messages 6
%
unmap a
|wwwwww++|0|
0 create 0:1 1
0 come barrier
1 come barrier
0 barrier 1
1 barrier 1
1 map 0:1 1
1 startread 0:1
1 read 0:1 00
1 unmap 0:1
region 0:1 00
events 23 messages 6
";

/// The word for a mark.
fn why_of(mark: u8) -> &'static str {
    match mark {
        b'n' => "NoNodes",
        b'h' => "BadHex",
        _ => "BadWord",
    }
}

/// What is wanted of a script that is cut behind a byte with this mark, in the line of this number.
fn wanted_of(alloc: Global, mark: u8, number: usize, whole: &str) -> Result<String, OutOfMemory> {
    if mark == b'+' {
        return String::from_str(alloc, whole);
    }
    let why = why_of(mark);
    format!(in alloc; "2|\nbad script {number} {why}\n")
}

/// Puts the bytes of a line behind the script, one by one. Nothing where each of these scripts is answered as its mark
/// says, and else the answer to the first that isn't, with the script.
fn wrong_cut(
    alloc: Global,
    script: &mut Vec<u8>,
    line: &str,
    marks: &str,
    number: usize,
    whole: &str,
) -> Result<String, OutOfMemory> {
    for (byte, mark) in line.bytes().zip(marks.bytes()) {
        script.push(byte)?;
        let wanted = wanted_of(alloc, mark, number, whole)?;
        let seen = answered(alloc, "order first", script.as_slice())?;
        if seen.as_str() != wanted.as_str() {
            let cut = String::from_utf8_lossy(alloc, script.as_slice())?;
            return format!(in alloc; "{cut}\n\ngave\n\n{seen}");
        }
    }
    Ok(String::new(alloc))
}

/// The same of all lines of a page.
fn first_wrong_cut(alloc: Global, page: &str) -> Result<String, OutOfMemory> {
    let mut script = Vec::new(alloc);
    for (i, row) in page.split('%').enumerate() {
        let (line, rest) = row.split_once('|').unwrap_or((row, ""));
        let (marks, whole) = rest.split_once('|').unwrap_or((rest, ""));
        let line = without_feed(line);
        if line.len() != marks.len() {
            return format!(in alloc; "{line} has another number of marks");
        }
        let wrong = wrong_cut(alloc, &mut script, line, marks, i.saturating_add(1), whole)?;
        if !wrong.is_empty() {
            return Ok(wrong);
        }
    }
    Ok(String::new(alloc))
}

#[test]
fn each_cut_is_a_script_or_has_its_fault(rt: HostRuntime) -> Result<(), OutOfMemory> {
    for page in [ALONE, SHARED] {
        assert_eq!(rt; first_wrong_cut(rt.alloc(), page)?.as_str(), "");
    }
    Ok(())
}
