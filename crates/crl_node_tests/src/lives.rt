//! Regions are deleted while other nodes have them.

use crate::scripts::{Case, assert_gives};
use std::test::Fail;

// A delete waits until all other nodes have forgotten the region, or hold it until they unmap it.
#[test]
fn regions_are_deleted(rt: HostRuntime) -> Result<(), Fail> {
    let cases = [
        Case {
            what: "a delete of a region that another node has in its cache",
            script: "\
nodes 2
node 0
create a 1
barrier
barrier
delete a
barrier
node 1
barrier
map a
unmap a
barrier
barrier
map a
",
            order: &[],
            account: "\
0 create 0:1 1
0 come barrier
1 come barrier
0 barrier 1
0 come barrier
1 barrier 1
1 map 0:1 1
1 unmap 0:1
1 come barrier
0 barrier 2
0 deleting 0:1
1 barrier 2
1 come barrier
0 deleted 0:1
0 come barrier
0 barrier 3
1 barrier 3
1 refused map 0:1 Deleted
events 43 messages 12
",
        },
        Case {
            what: "a delete of a region that another node has mapped, which may use it until it unmaps it",
            script: "\
nodes 2
node 0
create a 1
barrier
barrier
delete a
barrier
node 1
barrier
map a
barrier
barrier
write a
put a 0 09
endwrite a
map a
unmap a
map a
",
            order: &[],
            account: "\
0 create 0:1 1
0 come barrier
1 come barrier
0 barrier 1
0 come barrier
1 barrier 1
1 map 0:1 1
1 come barrier
0 barrier 2
0 deleting 0:1
1 barrier 2
1 come barrier
0 deleted 0:1
0 come barrier
0 barrier 3
1 barrier 3
1 startwrite 0:1
1 write 0:1 00 09
1 refused map 0:1 Deleted
1 unmap 0:1
1 refused map 0:1 Deleted
events 53 messages 15
",
        },
        Case {
            what: "a purge overtakes the answer to a map",
            script: "\
nodes 2
node 0
create a 1
barrier
delete a
node 1
barrier
map a
unmap a
map a
",
            order: &[(6, 0), (6, 1), (1, 0), (1, 1)],
            account: "\
0 create 0:1 1
0 come barrier
1 come barrier
0 barrier 1
1 barrier 1
1 map 0:1 1
0 deleting 0:1
1 unmap 0:1
0 deleted 0:1
1 refused map 0:1 Deleted
events 28 messages 8
",
        },
    ];
    for case in &cases {
        assert_gives(&rt, rt.alloc(), case)?;
    }
    Ok(())
}
