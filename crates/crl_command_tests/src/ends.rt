//! Runs of several nodes with deletes and rounds, and runs that are stuck. Each account was worked out by hand,
//! from the rules of the protocol.

/// Deletes of regions that other nodes have.
pub const DELETES: &str = "\
a delete of a region that is cached elsewhere|order first|
nodes 2
node 0
create a 1
barrier
barrier
delete a
barrier
node 1
barrier
map a
unmap a
barrier
barrier
map a
|0|
0 create 0:1 1
0 come barrier
1 come barrier
0 barrier 1
0 come barrier
1 barrier 1
1 map 0:1 1
1 unmap 0:1
1 come barrier
0 barrier 2
0 deleting 0:1
1 barrier 2
1 come barrier
0 deleted 0:1
0 come barrier
0 barrier 3
1 barrier 3
1 refused map 0:1 Deleted
events 43 messages 12
%
a delete while the region is mapped elsewhere|order first|
nodes 2
node 0
create a 1
barrier
barrier
delete a
barrier
node 1
barrier
map a
barrier
barrier
write a
put a 0 09
endwrite a
map a
unmap a
map a
|0|
0 create 0:1 1
0 come barrier
1 come barrier
0 barrier 1
0 come barrier
1 barrier 1
1 map 0:1 1
1 come barrier
0 barrier 2
0 deleting 0:1
1 barrier 2
1 come barrier
0 deleted 0:1
0 come barrier
0 barrier 3
1 barrier 3
1 startwrite 0:1
1 write 0:1 00 09
1 refused map 0:1 Deleted
1 unmap 0:1
1 refused map 0:1 Deleted
events 53 messages 15
";

/// Rounds of collective calls.
pub const ROUNDS: &str = "\
a mixed round|order first|
nodes 2
node 0
barrier
node 1
sum 5
|0|
0 come barrier
1 come sum 5
0 refused barrier 1 Mixed
1 refused sum 1 Mixed
events 8 messages 2
%
a broadcast|order first|
nodes 2
node 0
receive
node 1
send 0aff
|0|
0 come receive
1 come send 0aff
0 broadcast 1 0aff
1 broadcast 1 0aff
events 8 messages 2
";

/// Nodes that wait for ever, each with what it waits for.
pub const STUCK: &str = "\
two nodes that wait for each other are named|order first|
nodes 2
node 0
create a 1
create b 1
map a
map b
barrier
write a
barrier
write b
endwrite b
endwrite a
node 1
barrier
map a
map b
write b
barrier
write a
endwrite a
endwrite b
|3|
0 create 0:1 1
0 create 0:2 1
0 map 0:1 1
0 map 0:2 1
0 come barrier
1 come barrier
0 barrier 1
0 startwrite 0:1
0 come barrier
1 barrier 1
1 map 0:1 1
1 map 0:2 1
1 startwrite 0:2
1 come barrier
0 barrier 2
1 barrier 2
stuck 0 0:2 by 1
stuck 1 0:1 by 0
events 45 messages 12
%
a reader that waits for a writer whose script is over|order first|
nodes 3
node 0
create a 1
map a
write a
node 1
map a
read a
node 2
barrier
|3|
0 create 0:1 1
0 map 0:1 1
0 startwrite 0:1
2 come barrier
1 map 0:1 1
stuck 1 0:1 by 0
stuck 2 round 1 without 0
events 15 messages 4
%
a round that lacks a node|order first|
nodes 2
node 0
barrier
|3|
0 come barrier
stuck 0 round 1 without 1
events 1 messages 0
";
