//! Copies become exclusive, and become shared again; and names are dropped from a full cache.

use crate::scripts::{Case, assert_gives};
use crl_cache::Cache;
use crl_model::mapping::Cached;
use crl_model::name::Name;
use std::test::Fail;

// In the order of the nodes.
#[test]
fn copies_change(rt: HostRuntime) -> Result<(), Fail> {
    let cases = [
        Case {
            what: "two nodes that read want to write: one is upgraded without bytes, and the other gets the bytes after it",
            script: "\
nodes 3
node 0
create a 1
barrier
barrier
node 1
barrier
map a
read a
endread a
barrier
write a
put a 0 01
endwrite a
node 2
barrier
map a
read a
endread a
barrier
write a
put a 0 02
endwrite a
",
            order: &[],
            account: "\
0 create 0:1 1
0 come barrier
1 come barrier
2 come barrier
0 barrier 1
0 come barrier
1 barrier 1
2 barrier 1
1 map 0:1 1
1 startread 0:1
1 read 0:1 00
1 come barrier
2 map 0:1 1
2 startread 0:1
2 read 0:1 00
2 come barrier
0 barrier 2
1 barrier 2
2 barrier 2
1 startwrite 0:1
1 write 0:1 00 01
2 startwrite 0:1
2 write 0:1 01 02
region 0:1 02
events 77 messages 24
",
        },
        Case {
            what: "the home reads what another node wrote, and that node keeps a shared copy",
            script: "\
nodes 2
node 0
create a 1
map a
barrier
read a
endread a
barrier
node 1
map a
write a
put a 0 01
endwrite a
barrier
barrier
read a
endread a
",
            order: &[],
            account: "\
0 create 0:1 1
0 map 0:1 1
0 come barrier
1 map 0:1 1
1 startwrite 0:1
1 write 0:1 00 01
1 come barrier
0 barrier 1
1 barrier 1
1 come barrier
0 startread 0:1
0 read 0:1 01
0 come barrier
0 barrier 2
1 barrier 2
1 startread 0:1
1 read 0:1 01
region 0:1 01
events 39 messages 10
",
        },
    ];
    for case in &cases {
        assert_gives(&rt, rt.alloc(), case)?;
    }
    Ok(())
}

// A name that the cache has no room for takes its copy home.
#[test]
fn a_full_cache_drops_a_name(rt: HostRuntime) -> Result<(), Fail> {
    let cases = [
        Case {
            what: "room for one name",
            script: "\
nodes 2
cache 1
node 0
create a 1
create b 1
barrier
node 1
barrier
map a
write a
put a 0 0a
endwrite a
unmap a
map b
write b
put b 0 0b
endwrite b
unmap b
",
            order: &[],
            account: "\
0 create 0:1 1
0 create 0:2 1
0 come barrier
1 come barrier
0 barrier 1
1 barrier 1
1 map 0:1 1
1 startwrite 0:1
1 write 0:1 00 0a
1 unmap 0:1
1 map 0:2 1
1 startwrite 0:2
1 write 0:2 00 0b
1 unmap 0:2
region 0:1 0a
region 0:2 0b
events 40 messages 11
",
        },
        Case {
            what: "room for none",
            script: "\
nodes 2
cache 0
node 0
create a 1
create b 1
barrier
node 1
barrier
map a
write a
put a 0 0a
endwrite a
unmap a
map b
write b
put b 0 0b
endwrite b
unmap b
",
            order: &[],
            account: "\
0 create 0:1 1
0 create 0:2 1
0 come barrier
1 come barrier
0 barrier 1
1 barrier 1
1 map 0:1 1
1 startwrite 0:1
1 write 0:1 00 0a
1 unmap 0:1
1 map 0:2 1
1 startwrite 0:2
1 write 0:2 00 0b
1 unmap 0:2
region 0:1 0a
region 0:2 0b
events 42 messages 12
",
        },
        Case {
            what: "room for both",
            script: "\
nodes 2
cache 16
node 0
create a 1
create b 1
barrier
node 1
barrier
map a
write a
put a 0 0a
endwrite a
unmap a
map b
write b
put b 0 0b
endwrite b
unmap b
",
            order: &[],
            account: "\
0 create 0:1 1
0 create 0:2 1
0 come barrier
1 come barrier
0 barrier 1
1 barrier 1
1 map 0:1 1
1 startwrite 0:1
1 write 0:1 00 0a
1 unmap 0:1
1 map 0:2 1
1 startwrite 0:2
1 write 0:2 00 0b
1 unmap 0:2
region 0:1 0a
region 0:2 0b
events 38 messages 10
",
        },
    ];
    for case in &cases {
        assert_gives(&rt, rt.alloc(), case)?;
    }
    Ok(())
}

/// A region of node 0.
fn region(serial: u32) -> Cached {
    Cached {
        name: Name::new(0, serial),
        size: 8,
    }
}

// A cache with room for one name, and one with room for none.
#[test]
fn a_cache_keeps_one_name(rt: HostRuntime) -> Result<(), Fail> {
    let mut cache = Cache::new(rt.alloc(), 1)?;
    assert!(rt; cache.keep(region(1)) == None);
    assert!(rt; cache.keep(region(2)) == Some(Name::new(0, 1)));
    assert!(rt; cache.take_back(Name::new(0, 1)) == None);
    assert!(rt; cache.take_back(Name::new(0, 2)) == Some(8));
    let mut none = Cache::new(rt.alloc(), 0)?;
    assert!(rt; none.keep(region(1)) == Some(Name::new(0, 1)));
    Ok(())
}
