//! Scripts that are made, and what is said of their runs.

use crl_cases::page::first_wrong;
use crl_cases::trial::answered;
use crl_model::OutOfMemory;

/// The words of seed 42 are 3400036912, 3349765444, 515166382, 4224707908, 1556152254, 2777144205, 3631167442 and
/// 1399683183, by a second writing of the generator. The region of a round is its first word modulo the number of
/// regions, and what is done there its second modulo 4: a read, a write, a flush, or an unmap and a map.
const MADE: &str = "\
no rounds|gen 1 1 1 0||0|
nodes 1
cache 16
node 0
create r0_1 16
barrier
map r0_1
barrier
unmap r0_1
%
its run|summary 1 1 1 0||0|
nodes 1 regions 1 sections 0 events 5 messages 0
%
a round of one node and three regions|gen 42 1 3 1||0|
nodes 1
cache 16
node 0
create r0_1 16
create r0_2 16
create r0_3 16
barrier
map r0_1
map r0_2
map r0_3
read r0_2
endread r0_2
barrier
unmap r0_1
unmap r0_2
unmap r0_3
%
its run|summary 42 1 3 1||0|
nodes 1 regions 3 sections 1 events 13 messages 0
%
rounds of two nodes|gen 42 2 3 2||0|
nodes 2
cache 16
node 0
create r0_1 16
create r0_2 16
barrier
map r0_1
map r1_1
map r0_2
read r1_1
endread r1_1
read r1_1
endread r1_1
barrier
unmap r0_1
unmap r1_1
unmap r0_2
node 1
create r1_1 16
barrier
map r0_1
map r1_1
map r0_2
write r0_1
add r0_1 0 1
endwrite r0_1
unmap r1_1
map r1_1
barrier
unmap r0_1
unmap r1_1
unmap r0_2
";

#[test]
fn recipes_have_their_scripts(rt: HostRuntime) -> Result<(), OutOfMemory> {
    assert_eq!(rt; first_wrong(rt.alloc(), MADE)?.as_str(), "");
    Ok(())
}

// Twice the same, and never stuck.
#[test]
fn summaries_are_the_same_twice(rt: HostRuntime) -> Result<(), OutOfMemory> {
    for line in ["summary 0 4 3 10", "summary 1 4 3 10", "summary 7 8 5 5"] {
        let seen = answered(rt.alloc(), line, b"")?;
        let again = answered(rt.alloc(), line, b"")?;
        assert!(rt; seen.as_str().starts_with("0|\nnodes "), "of {line}");
        assert_eq!(rt; seen.as_str(), again.as_str(), "of {line}");
    }
    Ok(())
}
