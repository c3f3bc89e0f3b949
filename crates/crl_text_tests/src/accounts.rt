//! Accounts that are judged, and texts that are none.

use crl_cases::page::first_wrong;
use crl_cases::table::{Table, first_wrong_row};
use crl_model::OutOfMemory;

/// Legal accounts.
const LEGAL: &str = "\
nothing|check 1||0|
legal
%
a whole account of one node|check 1|
0 create 0:1 4
0 map 0:1 4
0 startwrite 0:1
0 write 0:1 00000000 2a000000
0 startread 0:1
0 read 0:1 2a000000
0 unmap 0:1
region 0:1 2a000000
events 7 messages 0
|0|
legal
%
more nodes than make calls, and zeros in front of their number|check 00000000000000000064|
63 create 63:1 1
0 map 63:1 1
|0|
legal
%
two nodes meet in a round, and then share a region|check 2|
0 create 0:1 1
0 come barrier
1 come barrier
1 barrier 1
0 barrier 1
1 map 0:1 1
1 startwrite 0:1
1 write 0:1 00 05
0 map 0:1 1
0 startread 0:1
0 read 0:1 05
1 flush 0:1
|0|
legal
%
a broadcast, a sum, the least and the greatest, and parts that don't agree|check 2|
0 come receive
1 come send 0aff
0 broadcast 1 0aff
1 broadcast 1 0aff
0 come sum -1
1 come sum 9223372036854775807
1 sum 2 9223372036854775806
0 sum 2 9223372036854775806
0 come min 3
1 come min -4
0 min 3 -4
0 come max 5
1 min 3 -4
1 come max 5
1 max 4 5
0 max 4 5
0 come barrier
1 come sum 5
0 refused barrier 5 Mixed
1 refused sum 5 Mixed
|0|
legal
%
a delete, and refusals|check 1|
0 refused create 0:1 BadSize
0 refused map 0:1 Unknown
0 create 0:2 1
0 refused unmap 0:2 NotMapped
0 map 0:2 1
0 startwrite 0:2
0 refused write 0:2 SectionOpen
0 refused endread 0:2 NotReading
0 refused unmap 0:2 InSection
0 refused put 0:2 OutOfRange
0 write 0:2 00 01
0 refused add 0:2 NotWriting
0 deleting 0:2
0 deleted 0:2
0 refused delete 0:2 Deleted
0 refused send 1 WrongSize
|0|
legal
%
a node beside those that are there|check 1|
1 create 1:1 4
|7|
illegal 1
%
a delete that waits is a call of its node|check 1|
0 create 0:1 1
0 deleting 0:1
0 create 0:2 1
|7|
illegal 3
%
a lone receive is no broadcast|check 1|
0 come receive
0 broadcast 1 00
|7|
illegal 2
";

/// Accounts of two nodes with a line that is no legal step.
const ILLEGAL: Table<'static> = Table {
    words: "check 2",
    head: "",
    says: "7|\nillegal ",
    rows: "\
0 create 0:1 4\n0 map 0:1 4\n0 startread 0:1\n0 read 0:1 00000001|4%\
2 create 2:1 4\n|1%\
0 create 0:2 4\n|1%\
0 create 1:1 4\n|1%\
0 create 0:1 4\n0 map 0:1 5\n|2%\
0 create 0:1 1\n0 map 0:1 1\n1 map 0:1 1\n0 startwrite 0:1\n1 startread 0:1\n|5%\
0 create 0:1 1\n0 map 0:1 1\n1 map 0:1 1\n0 startread 0:1\n1 startwrite 0:1\n|5%\
0 come barrier\n0 create 0:1 1\n|2%\
0 come barrier\n0 barrier 1\n|2%\
0 come sum 1\n1 come sum 2\n0 sum 1 4\n|3%\
0 come min 1\n1 come min 2\n0 min 1 2\n|3%\
0 come barrier\n1 come sum 5\n0 barrier 1\n|3%\
0 come barrier\n1 come barrier\n0 refused barrier 1 Mixed\n|3%\
0 come barrier\n1 come sum 5\n0 refused sum 1 Mixed\n|3",
};

/// Texts with a line that fits no place.
const BAD: Table<'static> = Table {
    words: "check 2",
    head: "",
    says: "8|\nbad account ",
    rows: "\
0 creat 0:1 4|1%\
\n|1%\
0 create 0:1 4\n\n|2%\
0 create 0:1 04\n|1%\
0  create 0:1 4\n|1%\
0 create 0:1 4\r\n|1%\
0 read 0:1 \n|1%\
0 read 0:1 0\n|1%\
0 read 0:1 0A\n|1%\
0 come sum +1\n|1%\
0 refused barrier 0:1 Mixed\n|1%\
0 refused map 1 Unknown\n|1%\
0 mixed 1\n|1%\
events 0 messages 0\n0 create 0:1 4\n|2%\
region 0:1 00\nevents 1 messages 0\nregion 0:1 00\n|3",
};

#[test]
fn accounts_are_judged(rt: HostRuntime) -> Result<(), OutOfMemory> {
    assert_eq!(rt; first_wrong(rt.alloc(), LEGAL)?.as_str(), "");
    for table in [ILLEGAL, BAD] {
        assert_eq!(rt; first_wrong_row(rt.alloc(), table)?.as_str(), "");
    }
    Ok(())
}
