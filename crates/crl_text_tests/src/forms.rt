//! Scripts in each form that a script may have, and texts that are none.

use crl_cases::page::first_wrong;
use crl_cases::table::{Table, first_wrong_row};
use crl_cases::trial::answered;
use crl_model::OutOfMemory;

/// Scripts with no statement, however their lines are spaced.
const EMPTY: Table<'static> = Table {
    words: "order first",
    head: "",
    says: "0|\nevents 0 messages 0",
    rows: "\
nodes 1|%\
nodes 1\n|%\
nodes 1\nnode 0|%\
nodes 1\nnode 0\n|%\
nodes 01\nnode 00\n|%\
\x20nodes  1 \n\tnode\t0\t\n|%\
nodes 1\r\nnode 0\r\n|%\
\n \nnodes 1\n\n\r\nnode 0\n\n|%\
# a remark\nnodes 1\n  #another\nnode 0\n#|%\
nodes 1\ncache 0\n|%\
nodes 1\ncache 65535\nnode 0\n|%\
nodes 2\n|%\
nodes 2\nnode 1\nnode 0|%\
nodes 64\nnode 63\n|",
};

/// Faults of the lines before any statement.
const FIRST_LINES: Table<'static> = Table {
    words: "order first",
    head: "",
    says: "2|\nbad script ",
    rows: "\
|1 NoNodes%\
\n\n|1 NoNodes%\
\x20|1 NoNodes%\
\0|1 NoNodes%\
bad|1 NoNodes%\
node 0\n|1 NoNodes%\
\n# a remark\nnode 0\n|3 NoNodes%\
NODES 1\n|1 NoNodes%\
\u{feff}nodes 1\n|1 NoNodes%\
nodes|1 BadWord%\
nodes 1 1\n|1 BadWord%\
nodes 1 # a remark\n|1 BadWord%\
nodes +1\n|1 BadNumber%\
nodes one\n|1 BadNumber%\
nodes 1\0\n|1 BadNumber%\
nodes 1\r|1 BadNumber%\
nodes 18446744073709551616\n|1 BadNumber%\
nodes 0\n|1 BadNodes%\
nodes 65\n|1 BadNodes%\
nodes 18446744073709551615\n|1 BadNodes%\
nodes 1\nnodes 1\n|2 BadWord%\
nodes 1\ncreate a 4\n|2 BadWord%\
nodes 1\nnode\n|2 BadWord%\
nodes 1\n\r|2 BadWord%\
nodes 1\nnode x\n|2 BadNumber%\
nodes 1\nnode 1\n|2 BadNode%\
nodes 64\nnode 64\n|2 BadNode%\
nodes 1\ncache\n|2 BadWord%\
nodes 1\ncache 65536\n|2 BadNumber%\
nodes 1\ncache 1\ncache 1\n|3 BadWord%\
nodes 1\nnode 0\ncache 1\n|3 BadWord%\
nodes 1\nnode 0\nnode 0\n|3 TwiceNode%\
nodes 2\nnode 1\nnode 0\nnode 1\n|4 TwiceNode",
};

/// Faults of statements, which begin at the third line: of words, labels, numbers and bytes.
const STATEMENTS: Table<'static> = Table {
    words: "order first",
    head: "nodes 1\nnode 0\n",
    says: "2|\nbad script ",
    rows: "\
crea\n|3 BadWord%\
create\n|3 BadWord%\
create a 4 5\n|3 BadWord%\
Create a 4\n|3 BadWord%\
create a 4\nmap\n|4 BadWord%\
create a 4\nmap a 4\n|4 BadWord%\
create a 4\nstartread a\n|4 BadWord%\
barrier 1\n|3 BadWord%\
send\n|3 BadWord%\
create 1a 4\n|3 BadWord%\
create a-b 4\n|3 BadWord%\
create \u{e9} 4\n|3 BadWord%\
create abcdefghijklmnopqrstuvwxyz_012345 4\n|3 BadWord%\
create a 4\nmap 0:1\n|4 BadWord%\
create a 4\ncreate a 4\n|4 TwiceLabel%\
create a 4\ncreate a x\n|4 TwiceLabel%\
map a\n|3 UnknownLabel%\
create a 4\nmap A\nmap b\n|4 UnknownLabel%\
map b\ncreate a x\n|4 BadSize%\
create a +4\n|3 BadSize%\
create a 0x4\n|3 BadSize%\
create a 4\0\n|3 BadSize%\
create a 4294967296\n|3 BadSize%\
create a 000000000000000000004\n|3 BadSize%\
put a x 2\ncreate a 4\n|3 BadNumber%\
put a 4294967296 2a\ncreate a 4\n|3 BadNumber%\
add a 0 18446744073709551616\ncreate a 8\n|3 BadNumber%\
sum 9223372036854775808\n|3 BadNumber%\
sum -9223372036854775809\n|3 BadNumber%\
min -\n|3 BadNumber%\
max +1\n|3 BadNumber%\
put a 0 2\ncreate a 4\n|3 BadHex%\
put a 0 2g\ncreate a 4\n|3 BadHex%\
send 0x\n|3 BadHex",
};

/// Faults in the block of a second node, and between blocks.
const BLOCKS: Table<'static> = Table {
    words: "order first",
    head: "nodes 2\nnode 0\ncreate a 1\nbarrier\nnode 1\n",
    says: "2|\nbad script ",
    rows: "\
map a\nmap b\n|7 UnknownLabel%\
map b\nbarrier\nmap c\ncreate b 1\n|8 UnknownLabel%\
map b\ncreate b 1\nput b 0 0\n|8 BadHex%\
create a 1\n|6 TwiceLabel%\
barrier\nnode 0\n|7 TwiceNode%\
barrier\nnode 2\n|7 BadNode%\
cache 1\n|6 BadWord%\
nodes 2\n|6 BadWord%\
create b 1\nmap b\nput b 0 0\n|8 BadHex",
};

/// Texts that are run.
const FREE: &str = "\
leading zeros, both cases of digits, spaces, tabs, an empty line and a remark|order first|
\x20nodes\t01
node 00\r
\tcreate  a 00000000000000000004\r

# a remark
map a
write a
put a 01 2aFf
endwrite a|0|
0 create 0:1 4
0 map 0:1 4
0 startwrite 0:1
0 write 0:1 00000000 002aff00
region 0:1 002aff00
events 4 messages 0
%
the longest label, labels with digits and underscores, two that differ in case, words of the grammar|order first|
nodes 1
node 0
create abcdefghijklmnopqrstuvwxyz_01234 1
create Z 2
create z 3
create a9_ 4
create create 5
create put 6
create node 7
map put
map z
map create
map abcdefghijklmnopqrstuvwxyz_01234
map Z
map node
map a9_
write put
put put 0 01
endwrite put|0|
0 create 0:1 1
0 create 0:2 2
0 create 0:3 3
0 create 0:4 4
0 create 0:5 5
0 create 0:6 6
0 create 0:7 7
0 map 0:6 6
0 map 0:3 3
0 map 0:5 5
0 map 0:1 1
0 map 0:2 2
0 map 0:7 7
0 map 0:4 4
0 startwrite 0:6
0 write 0:6 000000000000 010000000000
region 0:1 00
region 0:2 0000
region 0:3 000000
region 0:4 00000000
region 0:5 0000000000
region 0:6 010000000000
region 0:7 00000000000000
events 16 messages 0
%
the blocks of nodes in any order, and a label that another node creates|order first|
nodes 3
node 2
create b 2
node 0
create a 1
map b
|0|
0 create 0:1 1
2 create 2:1 2
0 map 2:1 2
region 0:1 00
region 2:1 0000
events 8 messages 2
";

#[test]
fn texts_are_scripts_or_have_their_fault(rt: HostRuntime) -> Result<(), OutOfMemory> {
    for table in [EMPTY, FIRST_LINES, STATEMENTS, BLOCKS] {
        assert_eq!(rt; first_wrong_row(rt.alloc(), table)?.as_str(), "");
    }
    assert_eq!(rt; first_wrong(rt.alloc(), FREE)?.as_str(), "");
    Ok(())
}

// Bytes that are no text.
#[test]
fn other_bytes_have_their_fault(rt: HostRuntime) -> Result<(), OutOfMemory> {
    let cases: [(&[u8], &str); 4] = [
        (b"\xff", "2|\nbad script 1 NoNodes\n"),
        (b"nodes \xff\n", "2|\nbad script 1 BadNumber\n"),
        (b"nodes 1\n\xff", "2|\nbad script 2 BadWord\n"),
        (
            b"nodes 1\nnode 0\ncreate \xc3 4\n",
            "2|\nbad script 3 BadWord\n",
        ),
    ];
    for (script, wanted) in cases {
        assert_eq!(rt;
            answered(rt.alloc(), "order first", script)?.as_str(),
            wanted
        );
    }
    Ok(())
}
