//! Runs of one node. Each account is what a single machine with one array gives, and was worked out by hand.

/// Sections, maps and names.
pub const SECTIONS: &str = "\
a create, a map, a write section, a read section and an unmap|order first|
nodes 1
node 0
create a 4
map a
write a
put a 0 2a
endwrite a
read a
endread a
unmap a
|0|
0 create 0:1 4
0 map 0:1 4
0 startwrite 0:1
0 write 0:1 00000000 2a000000
0 startread 0:1
0 read 0:1 2a000000
0 unmap 0:1
region 0:1 2a000000
events 7 messages 0
%
a create alone|order first|
nodes 1
node 0
create a 1
|0|
0 create 0:1 1
region 0:1 00
events 1 messages 0
%
a region begins as zeros, and stays when it is unmapped|order first|
nodes 1
node 0
create a 2
map a
read a
endread a
unmap a
map a
read a
endread a
|0|
0 create 0:1 2
0 map 0:1 2
0 startread 0:1
0 read 0:1 0000
0 unmap 0:1
0 map 0:1 2
0 startread 0:1
0 read 0:1 0000
region 0:1 0000
events 8 messages 0
%
a region is mapped as often as it was mapped and not unmapped since|order first|
nodes 1
node 0
create a 3
map a
map a
unmap a
write a
put a 1 5c
endwrite a
unmap a
map a
read a
endread a
unmap a
|0|
0 create 0:1 3
0 map 0:1 3
0 map 0:1 3
0 unmap 0:1
0 startwrite 0:1
0 write 0:1 000000 005c00
0 unmap 0:1
0 map 0:1 3
0 startread 0:1
0 read 0:1 005c00
0 unmap 0:1
region 0:1 005c00
events 11 messages 0
%
a write section with no put|order first|
nodes 1
node 0
create a 2
map a
write a
endwrite a
|0|
0 create 0:1 2
0 map 0:1 2
0 startwrite 0:1
0 write 0:1 0000 0000
region 0:1 0000
events 4 messages 0
%
puts at the first byte, the last, several and all, and over bytes that were put before|order first|
nodes 1
node 0
create a 6
map a
write a
put a 0 01
put a 5 06
endwrite a
write a
put a 2 0a0b
put a 3 0c0d
endwrite a
read a
endread a
write a
put a 0 f0f1f2f3f4f5
put a 4 00
put a 4 9f
endwrite a
read a
endread a
|0|
0 create 0:1 6
0 map 0:1 6
0 startwrite 0:1
0 write 0:1 000000000000 010000000006
0 startwrite 0:1
0 write 0:1 010000000006 01000a0c0d06
0 startread 0:1
0 read 0:1 01000a0c0d06
0 startwrite 0:1
0 write 0:1 01000a0c0d06 f0f1f2f39ff5
0 startread 0:1
0 read 0:1 f0f1f2f39ff5
region 0:1 f0f1f2f39ff5
events 12 messages 0
%
a section that is open at the end has left nothing|order first|
nodes 1
node 0
create a 2
map a
write a
put a 0 aabb
endwrite a
write a
put a 0 ccdd
|0|
0 create 0:1 2
0 map 0:1 2
0 startwrite 0:1
0 write 0:1 0000 aabb
0 startwrite 0:1
region 0:1 aabb
events 5 messages 0
%
offsets of more than one digit|order first|
nodes 1
node 0
create a 12
map a
write a
put a 10 1011
put a 9 09
endwrite a
|0|
0 create 0:1 12
0 map 0:1 12
0 startwrite 0:1
0 write 0:1 000000000000000000000000 000000000000000000091011
region 0:1 000000000000000000091011
events 4 messages 0
%
read sections nest, and each shows the same bytes|order first|
nodes 1
node 0
create a 2
map a
write a
put a 1 77
endwrite a
read a
read a
endread a
read a
endread a
endread a
write a
put a 0 66
endwrite a
read a
read a
read a
endread a
endread a
endread a
unmap a
|0|
0 create 0:1 2
0 map 0:1 2
0 startwrite 0:1
0 write 0:1 0000 0077
0 startread 0:1
0 startread 0:1
0 read 0:1 0077
0 startread 0:1
0 read 0:1 0077
0 read 0:1 0077
0 startwrite 0:1
0 write 0:1 0077 6677
0 startread 0:1
0 startread 0:1
0 startread 0:1
0 read 0:1 6677
0 read 0:1 6677
0 read 0:1 6677
0 unmap 0:1
region 0:1 6677
events 19 messages 0
%
a map inside of a read section|order first|
nodes 1
node 0
create a 1
map a
read a
map a
read a
endread a
endread a
unmap a
unmap a
|0|
0 create 0:1 1
0 map 0:1 1
0 startread 0:1
0 map 0:1 1
0 startread 0:1
0 read 0:1 00
0 read 0:1 00
0 unmap 0:1
0 unmap 0:1
region 0:1 00
events 9 messages 0
%
sections of two regions know nothing of each other|order first|
nodes 1
node 0
create a 2
create b 3
map b
map a
write b
write a
put a 1 ff
put b 0 0102
endwrite a
read a
endwrite b
read b
endread a
endread b
unmap a
unmap b
|0|
0 create 0:1 2
0 create 0:2 3
0 map 0:2 3
0 map 0:1 2
0 startwrite 0:2
0 startwrite 0:1
0 write 0:1 0000 00ff
0 startread 0:1
0 write 0:2 000000 010200
0 startread 0:2
0 read 0:1 00ff
0 read 0:2 010200
0 unmap 0:1
0 unmap 0:2
region 0:1 00ff
region 0:2 010200
events 14 messages 0
%
names go by the order of the creates, and not by labels or first uses|order first|
nodes 1
node 0
create z 1
map z
read z
create a 1
map a
write a
put a 0 0a
endwrite a
endread z
write z
put z 0 1a
endwrite z
unmap z
|0|
0 create 0:1 1
0 map 0:1 1
0 startread 0:1
0 create 0:2 1
0 map 0:2 1
0 startwrite 0:2
0 write 0:2 00 0a
0 read 0:1 00
0 startwrite 0:1
0 write 0:1 00 1a
0 unmap 0:1
region 0:1 1a
region 0:2 0a
events 11 messages 0
%
the final regions stand by the number of their names, 0:10 behind 0:9|order first|
nodes 1
node 0
create k 1
create j 1
create i 1
create h 1
create g 1
create f 1
create e 1
create d 1
create c 1
create b 1
create a 1
map a
write a
put a 0 0b
endwrite a
map b
write b
put b 0 0a
endwrite b
map j
write j
put j 0 02
endwrite j
|0|
0 create 0:1 1
0 create 0:2 1
0 create 0:3 1
0 create 0:4 1
0 create 0:5 1
0 create 0:6 1
0 create 0:7 1
0 create 0:8 1
0 create 0:9 1
0 create 0:10 1
0 create 0:11 1
0 map 0:11 1
0 startwrite 0:11
0 write 0:11 00 0b
0 map 0:10 1
0 startwrite 0:10
0 write 0:10 00 0a
0 map 0:2 1
0 startwrite 0:2
0 write 0:2 00 02
region 0:1 00
region 0:2 02
region 0:3 00
region 0:4 00
region 0:5 00
region 0:6 00
region 0:7 00
region 0:8 00
region 0:9 00
region 0:10 0a
region 0:11 0b
events 20 messages 0
";
