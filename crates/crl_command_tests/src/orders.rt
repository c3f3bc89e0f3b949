//! Runs of several nodes that the order of steps decides, or in which messages overtake each other. Each account was worked out by hand,
//! from the rules of the protocol.

/// Where the order of steps decides, and where messages overtake each other.
pub const ORDERS: &str = "\
a race decided by the order|order picks 1,1,1|
nodes 2
node 0
create a 4
node 1
map a
|0|
1 refused map 0:1 Unknown
0 create 0:1 4
region 0:1 00000000
events 7 messages 2
%
nested reads with a recall between|order picks 0*29,1|
nodes 2
node 0
create a 1
map a
barrier
barrier
write a
put a 0 01
endwrite a
node 1
barrier
map a
read a
read a
barrier
endread a
endread a
|0|
0 create 0:1 1
0 map 0:1 1
0 come barrier
1 come barrier
0 barrier 1
0 come barrier
1 barrier 1
1 map 0:1 1
1 startread 0:1
1 startread 0:1
1 come barrier
0 barrier 2
1 barrier 2
1 read 0:1 00
1 read 0:1 00
0 startwrite 0:1
0 write 0:1 00 01
region 0:1 01
events 40 messages 10
%
a recall before its grant|order picks 0*7,1*12,0,1|
nodes 2
node 0
create a 1
map a
barrier
write a
endwrite a
node 1
barrier
map a
read a
endread a
|0|
0 create 0:1 1
0 map 0:1 1
0 come barrier
1 come barrier
0 barrier 1
1 barrier 1
1 map 0:1 1
1 startread 0:1
1 read 0:1 00
0 startwrite 0:1
0 write 0:1 00 00
region 0:1 00
events 30 messages 8
%
a recall before its grant, with no round|order picks 0,1*9,0,0,1|
nodes 2
node 0
create a 1
map a
write a
endwrite a
node 1
map a
read a
endread a
|0|
0 create 0:1 1
1 map 0:1 1
0 map 0:1 1
1 startread 0:1
1 read 0:1 00
0 startwrite 0:1
0 write 0:1 00 00
region 0:1 00
events 22 messages 6
%
a stale recall during a new ask|order picks 0*7,1*16,0,0,2,1,0*4,1,0,1|
nodes 2
cache 0
node 0
create a 1
map a
barrier
write a
put a 0 07
endwrite a
node 1
barrier
map a
read a
endread a
unmap a
map a
read a
endread a
|0|
0 create 0:1 1
0 map 0:1 1
0 come barrier
1 come barrier
0 barrier 1
1 barrier 1
1 map 0:1 1
1 startread 0:1
1 read 0:1 00
1 unmap 0:1
0 startwrite 0:1
0 write 0:1 00 07
1 map 0:1 1
1 startread 0:1
1 read 0:1 07
region 0:1 07
events 44 messages 12
%
an ask before the return of a flush|order picks 0*25,1|
nodes 2
node 0
create a 1
barrier
node 1
barrier
map a
write a
put a 0 05
endwrite a
flush a
read a
endread a
|0|
0 create 0:1 1
0 come barrier
1 come barrier
0 barrier 1
1 barrier 1
1 map 0:1 1
1 startwrite 0:1
1 write 0:1 00 05
1 flush 0:1
1 startread 0:1
1 read 0:1 05
region 0:1 05
events 32 messages 9
%
an ask before the return of a flush, with no round|order picks 0*17,1|
nodes 2
node 0
create a 1
node 1
map a
write a
put a 0 05
endwrite a
flush a
read a
endread a
|0|
0 create 0:1 1
1 map 0:1 1
1 startwrite 0:1
1 write 0:1 00 05
1 flush 0:1
1 startread 0:1
1 read 0:1 05
region 0:1 05
events 24 messages 7
%
a purge before the answer to a map|order picks 0*6,1*6,0,1|
nodes 2
node 0
create a 1
barrier
delete a
node 1
barrier
map a
unmap a
map a
|0|
0 create 0:1 1
0 come barrier
1 come barrier
0 barrier 1
1 barrier 1
1 map 0:1 1
0 deleting 0:1
1 unmap 0:1
0 deleted 0:1
1 refused map 0:1 Deleted
events 28 messages 8
%
a copy goes back before the release of it|order picks 0*25,1,1,0,1|
nodes 2
node 0
create a 1
map a
barrier
read a
endread a
node 1
map a
write a
put a 0 01
endwrite a
barrier
flush a
|0|
0 create 0:1 1
0 map 0:1 1
0 come barrier
1 map 0:1 1
1 startwrite 0:1
1 write 0:1 00 01
1 come barrier
0 barrier 1
1 barrier 1
1 flush 0:1
0 startread 0:1
0 read 0:1 01
region 0:1 01
events 33 messages 9
";
