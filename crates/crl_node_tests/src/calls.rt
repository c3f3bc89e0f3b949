//! The home calls copies back while other messages are under way.

use crate::scripts::{Case, assert_gives};
use std::test::Fail;

// Messages come in another order than they were sent.
#[test]
fn copies_are_called_back(rt: HostRuntime) -> Result<(), Fail> {
    let cases = [
        Case {
            what: "a recall between reads inside each other: the copy goes back at the end of the second",
            script: "\
nodes 2
node 0
create a 1
map a
barrier
barrier
write a
put a 0 01
endwrite a
node 1
barrier
map a
read a
read a
barrier
endread a
endread a
",
            order: &[(29, 0), (1, 1)],
            account: "\
0 create 0:1 1
0 map 0:1 1
0 come barrier
1 come barrier
0 barrier 1
0 come barrier
1 barrier 1
1 map 0:1 1
1 startread 0:1
1 startread 0:1
1 come barrier
0 barrier 2
1 barrier 2
1 read 0:1 00
1 read 0:1 00
0 startwrite 0:1
0 write 0:1 00 01
region 0:1 01
events 40 messages 10
",
        },
        Case {
            what: "a recall overtakes its grant: it is kept until the grant comes",
            script: "\
nodes 2
node 0
create a 1
map a
barrier
write a
endwrite a
node 1
barrier
map a
read a
endread a
",
            order: &[(7, 0), (12, 1), (1, 0), (1, 1)],
            account: "\
0 create 0:1 1
0 map 0:1 1
0 come barrier
1 come barrier
0 barrier 1
1 barrier 1
1 map 0:1 1
1 startread 0:1
1 read 0:1 00
0 startwrite 0:1
0 write 0:1 00 00
region 0:1 00
events 30 messages 8
",
        },
        Case {
            what: "a recall of an old copy comes while the node asks anew: it is dropped, and no second return is sent",
            script: "\
nodes 2
cache 0
node 0
create a 1
map a
barrier
write a
put a 0 07
endwrite a
node 1
barrier
map a
read a
endread a
unmap a
map a
read a
endread a
",
            order: &[
                (7, 0),
                (16, 1),
                (2, 0),
                (1, 2),
                (1, 1),
                (4, 0),
                (1, 1),
                (1, 0),
                (1, 1),
            ],
            account: "\
0 create 0:1 1
0 map 0:1 1
0 come barrier
1 come barrier
0 barrier 1
1 barrier 1
1 map 0:1 1
1 startread 0:1
1 read 0:1 00
1 unmap 0:1
0 startwrite 0:1
0 write 0:1 00 07
1 map 0:1 1
1 startread 0:1
1 read 0:1 07
region 0:1 07
events 44 messages 12
",
        },
        Case {
            what: "an ask overtakes the return of the copy that the node had",
            script: "\
nodes 2
node 0
create a 1
barrier
node 1
barrier
map a
write a
put a 0 05
endwrite a
flush a
read a
endread a
",
            order: &[(25, 0), (1, 1)],
            account: "\
0 create 0:1 1
0 come barrier
1 come barrier
0 barrier 1
1 barrier 1
1 map 0:1 1
1 startwrite 0:1
1 write 0:1 00 05
1 flush 0:1
1 startread 0:1
1 read 0:1 05
region 0:1 05
events 32 messages 9
",
        },
        Case {
            what: "a return overtakes the release of the same copy",
            script: "\
nodes 2
node 0
create a 1
map a
barrier
read a
endread a
node 1
map a
write a
put a 0 01
endwrite a
barrier
flush a
",
            order: &[(25, 0), (2, 1), (1, 0), (1, 1)],
            account: "\
0 create 0:1 1
0 map 0:1 1
0 come barrier
1 map 0:1 1
1 startwrite 0:1
1 write 0:1 00 01
1 come barrier
0 barrier 1
1 barrier 1
1 flush 0:1
0 startread 0:1
0 read 0:1 01
region 0:1 01
events 33 messages 9
",
        },
    ];
    for case in &cases {
        assert_gives(&rt, rt.alloc(), case)?;
    }
    Ok(())
}
