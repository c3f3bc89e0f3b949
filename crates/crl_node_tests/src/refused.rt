//! Each allocation of a run may be refused. `bench/fail_alloc_nodes.sh` refuses them in turn, and wants this test to pass
//! each time.

use crate::by_hand::{play_by_hand, tell};
use crate::watched::Watched;
use crl_model::OutOfMemory;
use crl_node::Node;
use crl_script::{Script, read_script};
use crl_world::World;
use std::alloc::Global;
use std::test::Fail;

/// Every call and every message. The region `a` goes in two pieces. In turn: node 1 writes it; node 2 reads it, and is upgraded;
/// the home reads it; node 1 writes it again, and drops it from its full cache; `b` is deleted by node 2, and `a` by its home.
const SCRIPT: &str = "\
nodes 3
cache 1
node 0
create a 32776
create b 8
map a
barrier
barrier
barrier
barrier
read a
endread a
barrier
send 0aff
sum 1
barrier
unmap a
delete a
min 3
map a
max 6
barrier
node 1
barrier
map a
write a
put a 32768 07
add a 32768 1
endwrite a
barrier
barrier
barrier
barrier
write a
put a 32769 08
endwrite a
unmap a
map b
write b
add b 0 258
endwrite b
unmap b
receive
sum -5
barrier
min -3
max 4
sum 1
node 2
create c 1
barrier
barrier
map a
read a
read a
endread a
endread a
barrier
write a
put a 32768 09
endwrite a
barrier
barrier
receive
map b
unmap a
read b
unmap b
endread b
flush b
unmap b
delete b
sum 7
barrier
min 2
max 5
receive
";

/// What is told of it, as the second writing of the rules in `reference` has it too. Here `~` stands for 32,768 bytes of 0.
const TOLD: &str = "\
0 create 0:1 32776
0 create 0:2 8
0 map 0:1 32776
0 come barrier
1 come barrier
2 create 2:1 1
2 come barrier
0 barrier 1
0 come barrier
1 barrier 1
2 barrier 1
2 come barrier
1 map 0:1 32776
1 startwrite 0:1
1 write 0:1 ~0000000000000000 ~0700000000000001
1 come barrier
0 barrier 2
0 come barrier
1 barrier 2
1 come barrier
2 barrier 2
2 map 0:1 32776
2 startread 0:1
2 startread 0:1
2 read 0:1 ~0700000000000001
2 read 0:1 ~0700000000000001
2 come barrier
0 barrier 3
0 come barrier
1 barrier 3
1 come barrier
2 barrier 3
2 startwrite 0:1
2 write 0:1 ~0700000000000001 ~0900000000000001
2 come barrier
0 barrier 4
1 barrier 4
1 come barrier
2 barrier 4
2 come barrier
0 startread 0:1
0 read 0:1 ~0900000000000001
0 come barrier
0 barrier 5
0 come send 0aff
1 barrier 5
2 barrier 5
2 come receive
1 startwrite 0:1
1 write 0:1 ~0900000000000001 ~0908000000000001
1 unmap 0:1
1 map 0:2 8
1 startwrite 0:2
1 write 0:2 0000000000000000 0000000000000102
1 unmap 0:2
1 come receive
0 broadcast 6 0aff
0 come sum 1
1 broadcast 6 0aff
1 come sum -5
2 broadcast 6 0aff
2 map 0:2 8
2 unmap 0:1
2 startread 0:2
2 refused unmap 0:2 InSection
2 read 0:2 0000000000000102
2 flush 0:2
2 unmap 0:2
2 deleting 0:2
2 deleted 0:2
2 come sum 7
0 sum 7 3
0 come barrier
1 sum 7 3
1 come barrier
2 sum 7 3
2 come barrier
0 barrier 8
0 unmap 0:1
0 deleting 0:1
1 barrier 8
1 come min -3
2 barrier 8
2 come min 2
0 deleted 0:1
0 come min 3
0 min 9 -3
0 refused map 0:1 Deleted
0 come max 6
1 min 9 -3
1 come max 4
2 min 9 -3
2 come max 5
0 max 10 6
0 come barrier
1 max 10 6
1 come sum 1
2 max 10 6
2 come receive
0 refused barrier 11 Mixed
1 refused sum 11 Mixed
2 refused receive 11 Mixed
region 2:1 00
";

fn script_of(alloc: Global) -> Option<Script> {
    match read_script(alloc, SCRIPT.as_bytes()) {
        Ok(script) => Some(script),
        Err(_) => read_script(alloc, SCRIPT.as_bytes()).ok(),
    }
}

/// What is told of the world, with `~` for 65,536 digits of 0.
fn briefly(alloc: Global, world: World<Watched<Node>>) -> Result<String, OutOfMemory> {
    let text = tell(alloc, world)?;
    let zeros = "0".repeat(alloc, 65_536)?;
    let text = str::from_utf8(text.as_slice()).unwrap_or_default();
    text.replace(alloc, zeros.as_str(), "~")
}

// An act that wants memory is done again, and the run is the same.
#[test]
fn a_refused_act_is_done_again(rt: HostRuntime) -> Result<(), Fail> {
    let script = script_of(rt.alloc()).expect(&rt, "the script is one");
    let world = play_by_hand(rt.alloc(), &script).expect(&rt, "the run has an end");
    assert_eq!(rt; world.events(), 301);
    let text = match briefly(rt.alloc(), world) {
        Ok(text) => text,
        Err(_) => {
            let again = play_by_hand(rt.alloc(), &script).expect(&rt, "the run has an end");
            briefly(rt.alloc(), again)?
        }
    };
    assert_eq!(rt; text.as_str(), TOLD);
    Ok(())
}
