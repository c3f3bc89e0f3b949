//! Runs of one node with calls that are refused, deletes and rounds.
//! Each account is what a single machine with one array gives, and was worked out by hand.

/// Calls that are refused. Each leaves one line, and changes nothing else.
pub const REFUSALS: &str = "\
creates of sizes that no region has|order first|
nodes 1
node 0
create a 1
create b 0
create c 16777217
create d 16777220
create e 4294967295
map b
read b
create f 1
|0|
0 create 0:1 1
0 refused create 0:2 BadSize
0 refused create 0:3 BadSize
0 refused create 0:4 BadSize
0 refused create 0:5 BadSize
0 refused map 0:2 Unknown
0 refused read 0:2 NotMapped
0 create 0:6 1
region 0:1 00
region 0:6 00
events 8 messages 0
%
a label in front of its create stands for a region that isn't there yet|order first|
nodes 1
node 0
map a
unmap a
read a
endread a
write a
endwrite a
put a 0 2a
add a 0 1
flush a
delete a
create a 1
map a
|0|
0 refused map 0:1 Unknown
0 refused unmap 0:1 NotMapped
0 refused read 0:1 NotMapped
0 refused endread 0:1 NotMapped
0 refused write 0:1 NotMapped
0 refused endwrite 0:1 NotMapped
0 refused put 0:1 NotMapped
0 refused add 0:1 NotMapped
0 refused flush 0:1 NotMapped
0 refused delete 0:1 Unknown
0 create 0:1 1
0 map 0:1 1
region 0:1 00
events 12 messages 0
%
calls on a region that was never mapped, and on one that was unmapped|order first|
nodes 1
node 0
create a 4
unmap a
read a
endread a
write a
endwrite a
put a 0 2a
put a 4 2a
add a 0 1
flush a
map a
unmap a
unmap a
read a
put a 0 2a
|0|
0 create 0:1 4
0 refused unmap 0:1 NotMapped
0 refused read 0:1 NotMapped
0 refused endread 0:1 NotMapped
0 refused write 0:1 NotMapped
0 refused endwrite 0:1 NotMapped
0 refused put 0:1 NotMapped
0 refused put 0:1 NotMapped
0 refused add 0:1 NotMapped
0 refused flush 0:1 NotMapped
0 map 0:1 4
0 unmap 0:1
0 refused unmap 0:1 NotMapped
0 refused read 0:1 NotMapped
0 refused put 0:1 NotMapped
region 0:1 00000000
events 15 messages 0
%
ends, puts and adds with no section open|order first|
nodes 1
node 0
create a 1
map a
endread a
endwrite a
put a 0 2a
put a 1 2a
add a 0 1
read a
endread a
write a
endwrite a
endread a
endwrite a
|0|
0 create 0:1 1
0 map 0:1 1
0 refused endread 0:1 NotReading
0 refused endwrite 0:1 NotWriting
0 refused put 0:1 NotWriting
0 refused put 0:1 NotWriting
0 refused add 0:1 NotWriting
0 startread 0:1
0 read 0:1 00
0 startwrite 0:1
0 write 0:1 00 00
0 refused endread 0:1 NotReading
0 refused endwrite 0:1 NotWriting
region 0:1 00
events 13 messages 0
%
a write section excludes other sections, unmaps of one map of two, and flushes, and goes on behind them|order first|
nodes 1
node 0
create a 2
map a
map a
write a
put a 0 01
write a
read a
endread a
unmap a
flush a
put a 1 0203
add a 0 1
put a 1 04
endwrite a
read a
endread a
|0|
0 create 0:1 2
0 map 0:1 2
0 map 0:1 2
0 startwrite 0:1
0 refused write 0:1 SectionOpen
0 refused read 0:1 SectionOpen
0 refused endread 0:1 NotReading
0 refused unmap 0:1 InSection
0 refused flush 0:1 InSection
0 refused put 0:1 OutOfRange
0 refused add 0:1 OutOfRange
0 write 0:1 0000 0104
0 startread 0:1
0 read 0:1 0104
region 0:1 0104
events 14 messages 0
%
read sections exclude write sections, unmaps and flushes until the last has ended|order first|
nodes 1
node 0
create a 1
map a
read a
read a
write a
endread a
write a
endwrite a
put a 0 2a
unmap a
flush a
endread a
flush a
unmap a
|0|
0 create 0:1 1
0 map 0:1 1
0 startread 0:1
0 startread 0:1
0 refused write 0:1 SectionOpen
0 read 0:1 00
0 refused write 0:1 SectionOpen
0 refused endwrite 0:1 NotWriting
0 refused put 0:1 NotWriting
0 refused unmap 0:1 InSection
0 refused flush 0:1 InSection
0 read 0:1 00
0 flush 0:1
0 unmap 0:1
region 0:1 00
events 14 messages 0
%
a section is of one region, and excludes nothing of another|order first|
nodes 1
node 0
create a 1
create b 2
map a
map b
write a
read b
endread a
endwrite b
put b 0 2a
write b
endwrite a
endread b
|0|
0 create 0:1 1
0 create 0:2 2
0 map 0:1 1
0 map 0:2 2
0 startwrite 0:1
0 startread 0:2
0 refused endread 0:1 NotReading
0 refused endwrite 0:2 NotWriting
0 refused put 0:2 NotWriting
0 refused write 0:2 SectionOpen
0 write 0:1 00 00
0 read 0:2 0000
region 0:1 00
region 0:2 0000
events 12 messages 0
%
puts and adds past the end|order first|
nodes 1
node 0
create a 4
map a
write a
put a 0 01020304
put a 4 2a
put a 5 2a
put a 3 2a2b
put a 1 01020304
put a 0 0102030405
put a 260 2a
put a 65536 2a
put a 4294967295 2a
put a 4294967292 0102030405
add a 0 1
add a 4294967295 1
endwrite a
|0|
0 create 0:1 4
0 map 0:1 4
0 startwrite 0:1
0 refused put 0:1 OutOfRange
0 refused put 0:1 OutOfRange
0 refused put 0:1 OutOfRange
0 refused put 0:1 OutOfRange
0 refused put 0:1 OutOfRange
0 refused put 0:1 OutOfRange
0 refused put 0:1 OutOfRange
0 refused put 0:1 OutOfRange
0 refused put 0:1 OutOfRange
0 refused add 0:1 OutOfRange
0 refused add 0:1 OutOfRange
0 write 0:1 00000000 01020304
region 0:1 01020304
events 15 messages 0
%
an add is to eight bytes, the highest first, and wraps|order first|
nodes 1
node 0
create a 9
map a
write a
add a 1 255
add a 1 1
add a 2 1
endwrite a
write a
put a 1 ffffffffffffffff
add a 1 2
add a 0 18446744073709551615
endwrite a
|0|
0 create 0:1 9
0 map 0:1 9
0 startwrite 0:1
0 refused add 0:1 OutOfRange
0 write 0:1 000000000000000000 000000000000000100
0 startwrite 0:1
0 write 0:1 000000000000000100 ffffffffffffffff01
region 0:1 ffffffffffffffff01
events 7 messages 0
%
a delete is the end of a region at its home, but for the maps that are open|order first|
nodes 1
node 0
create a 1
create b 1
map a
delete a
delete a
map a
write a
put a 0 2a
endwrite a
unmap a
read a
map a
delete c
create c 1
|0|
0 create 0:1 1
0 create 0:2 1
0 map 0:1 1
0 deleting 0:1
0 deleted 0:1
0 refused delete 0:1 Deleted
0 refused map 0:1 Deleted
0 startwrite 0:1
0 write 0:1 00 2a
0 unmap 0:1
0 refused read 0:1 NotMapped
0 refused map 0:1 Deleted
0 refused delete 0:3 Unknown
0 create 0:3 1
region 0:2 00
region 0:3 00
events 13 messages 0
%
rounds of one node|order first|
nodes 1
node 0
barrier
send 2a
receive
sum -9223372036854775808
min 9223372036854775807
max 1
|0|
0 come barrier
0 barrier 1
0 come send 2a
0 broadcast 2 2a
0 come receive
0 refused receive 3 Mixed
0 come sum -9223372036854775808
0 sum 4 -9223372036854775808
0 come min 9223372036854775807
0 min 5 9223372036854775807
0 come max 1
0 max 6 1
events 6 messages 0
";
