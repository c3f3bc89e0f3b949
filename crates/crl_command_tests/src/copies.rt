//! Runs of several nodes, and how copies go between them. Each account was worked out by hand,
//! from the rules of the protocol.

/// How copies go from node to node.
pub const COPIES: &str = "\
the counts of a whole exchange|order first|
nodes 2
node 0
create a 4
barrier
node 1
barrier
map a
read a
endread a
unmap a
|0|
0 create 0:1 4
0 come barrier
1 come barrier
0 barrier 1
1 barrier 1
1 map 0:1 4
1 startread 0:1
1 read 0:1 00000000
1 unmap 0:1
region 0:1 00000000
events 23 messages 6
%
two upgrades, one without bytes|order first|
nodes 3
node 0
create a 1
barrier
barrier
node 1
barrier
map a
read a
endread a
barrier
write a
put a 0 01
endwrite a
node 2
barrier
map a
read a
endread a
barrier
write a
put a 0 02
endwrite a
|0|
0 create 0:1 1
0 come barrier
1 come barrier
2 come barrier
0 barrier 1
0 come barrier
1 barrier 1
2 barrier 1
1 map 0:1 1
1 startread 0:1
1 read 0:1 00
1 come barrier
2 map 0:1 1
2 startread 0:1
2 read 0:1 00
2 come barrier
0 barrier 2
1 barrier 2
2 barrier 2
1 startwrite 0:1
1 write 0:1 00 01
2 startwrite 0:1
2 write 0:1 01 02
region 0:1 02
events 77 messages 24
%
a writer becomes a reader and keeps its copy|order first|
nodes 2
node 0
create a 1
map a
barrier
read a
endread a
barrier
node 1
map a
write a
put a 0 01
endwrite a
barrier
barrier
read a
endread a
|0|
0 create 0:1 1
0 map 0:1 1
0 come barrier
1 map 0:1 1
1 startwrite 0:1
1 write 0:1 00 01
1 come barrier
0 barrier 1
1 barrier 1
1 come barrier
0 startread 0:1
0 read 0:1 01
0 come barrier
0 barrier 2
1 barrier 2
1 startread 0:1
1 read 0:1 01
region 0:1 01
events 39 messages 10
%
the cache evicts what was kept longest ago|order first|
nodes 2
cache 1
node 0
create a 1
create b 1
barrier
node 1
barrier
map a
write a
put a 0 0a
endwrite a
unmap a
map b
write b
put b 0 0b
endwrite b
unmap b
|0|
0 create 0:1 1
0 create 0:2 1
0 come barrier
1 come barrier
0 barrier 1
1 barrier 1
1 map 0:1 1
1 startwrite 0:1
1 write 0:1 00 0a
1 unmap 0:1
1 map 0:2 1
1 startwrite 0:2
1 write 0:2 00 0b
1 unmap 0:2
region 0:1 0a
region 0:2 0b
events 40 messages 11
%
the cache evicts, with no round|order first|
nodes 2
cache 1
node 0
create a 1
create b 1
node 1
map a
write a
put a 0 0a
endwrite a
unmap a
map b
write b
put b 0 0b
endwrite b
unmap b
|0|
0 create 0:1 1
0 create 0:2 1
1 map 0:1 1
1 startwrite 0:1
1 write 0:1 00 0a
1 unmap 0:1
1 map 0:2 1
1 startwrite 0:2
1 write 0:2 00 0b
1 unmap 0:2
region 0:1 0a
region 0:2 0b
events 32 messages 9
%
a cache of nothing, with no round|order first|
nodes 2
cache 0
node 0
create a 1
create b 1
node 1
map a
write a
put a 0 0a
endwrite a
unmap a
map b
write b
put b 0 0b
endwrite b
unmap b
|0|
0 create 0:1 1
0 create 0:2 1
1 map 0:1 1
1 startwrite 0:1
1 write 0:1 00 0a
1 unmap 0:1
1 map 0:2 1
1 startwrite 0:2
1 write 0:2 00 0b
1 unmap 0:2
region 0:1 0a
region 0:2 0b
events 34 messages 10
%
the cache without a line of its own|order first|
nodes 2
node 0
create a 1
create b 1
node 1
map a
write a
put a 0 0a
endwrite a
unmap a
map b
write b
put b 0 0b
endwrite b
unmap b
|0|
0 create 0:1 1
0 create 0:2 1
1 map 0:1 1
1 startwrite 0:1
1 write 0:1 00 0a
1 unmap 0:1
1 map 0:2 1
1 startwrite 0:2
1 write 0:2 00 0b
1 unmap 0:2
region 0:1 0a
region 0:2 0b
events 30 messages 8
";
