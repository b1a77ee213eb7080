//! Automatic collections in a replay: several workers take turns to the end, and what each did follows the line.

pub(crate) const ROWS: &str =
    "== three names are left when the nursery is full, and one worker has all three slots
gctrace replay --block-words=64 --nursery=1
status 0
-- reads
new a 0 0 15
drop a
new b 0 0 15
new c 0 0 15
new d 0 0 15
new e 0 0 15
census
-- writes
auto 0: 3 kept, 1 freed
worker 0: 3 won, 3 scanned
gen 0 step 0: 1 objects 16 words
gen 0 step 1: 3 objects 48 words
gen 1 step 0: 0 objects 0 words
large: 0 objects 0 words
roots: 4
remembered: 0
-- tells
== the first of two workers has the first slot and the third
gctrace replay --block-words=64 --nursery=1 --threads=2
status 0
-- reads
new a 0 0 15
drop a
new b 0 0 15
new c 0 0 15
new d 0 0 15
new e 0 0 15
census
-- writes
auto 0: 3 kept, 1 freed
worker 0: 2 won, 2 scanned
worker 1: 1 won, 1 scanned
gen 0 step 0: 1 objects 16 words
gen 0 step 1: 3 objects 48 words
gen 1 step 0: 0 objects 0 words
large: 0 objects 0 words
roots: 4
remembered: 0
-- tells
== each of three workers has one slot
gctrace replay --block-words=64 --nursery=1 --threads=3
status 0
-- reads
new a 0 0 15
drop a
new b 0 0 15
new c 0 0 15
new d 0 0 15
new e 0 0 15
census
-- writes
auto 0: 3 kept, 1 freed
worker 0: 1 won, 1 scanned
worker 1: 1 won, 1 scanned
worker 2: 1 won, 1 scanned
gen 0 step 0: 1 objects 16 words
gen 0 step 1: 3 objects 48 words
gen 1 step 0: 0 objects 0 words
large: 0 objects 0 words
roots: 4
remembered: 0
-- tells
== one worker takes its own blocks: it exports what is full, scans what stands in the last block, and only then takes back
gctrace replay --generations=1 --block-words=16 --nursery=2 --threads 1
status 0
-- reads
new a 0 0 3
new b 0 0 3
new c 0 0 3
new d 0 0 3
new e 0 0 3
new f 0 0 3
new g 0 0 3
new h 0 0 3
new i 0 0 3
collect 0
finish
commit
-- writes
auto 0: 8 kept, 0 freed
worker 0: 8 won, 8 scanned
block 0.0: 4 objects, taken by 0
collected 0: 9 kept, 0 freed
worker 0: 9 won, 9 scanned
block 0.0: 4 objects, taken by 0
block 0.1: 4 objects, taken by 0
-- tells
== two workers take their own blocks
gctrace replay --generations=1 --block-words=16 --nursery=3 --threads 2
status 0
-- reads
new a 0 0 3
new b 0 0 3
new c 0 0 3
new d 0 0 3
new e 0 0 3
new f 0 0 3
new g 0 0 3
new h 0 0 3
new i 0 0 3
new j 0 0 3
new k 0 0 3
new l 0 0 3
new m 0 0 3
heap
-- writes
auto 0: 12 kept, 0 freed
worker 0: 6 won, 6 scanned
worker 1: 6 won, 6 scanned
block 0.0: 4 objects, taken by 0
block 1.0: 4 objects, taken by 1
root a #1
root b #2
root c #3
root d #4
root e #5
root f #6
root g #7
root h #8
root i #9
root j #10
root k #11
root l #12
root m #13
#1 gen 0 step 0 ptrs [] words [0 0 0]
#2 gen 0 step 0 ptrs [] words [0 0 0]
#3 gen 0 step 0 ptrs [] words [0 0 0]
#4 gen 0 step 0 ptrs [] words [0 0 0]
#5 gen 0 step 0 ptrs [] words [0 0 0]
#6 gen 0 step 0 ptrs [] words [0 0 0]
#7 gen 0 step 0 ptrs [] words [0 0 0]
#8 gen 0 step 0 ptrs [] words [0 0 0]
#9 gen 0 step 0 ptrs [] words [0 0 0]
#10 gen 0 step 0 ptrs [] words [0 0 0]
#11 gen 0 step 0 ptrs [] words [0 0 0]
#12 gen 0 step 0 ptrs [] words [0 0 0]
#13 gen 0 step 0 ptrs [] words [0 0 0]
-- tells
== one block is free, which the first worker fills; the second finds none
gctrace replay --generations=1 --block-words=64 --nursery=2 --blocks=3 --threads=2
status 1
-- reads
new a 0 0 15
new b 0 0 15
new c 0 0 15
new d 0 0 15
new e 0 0 15
new f 0 0 15
new g 0 0 15
new h 0 0 15
new i 0 0 15
-- writes
-- tells
gctrace: line 9: heap full
== between a collection and its commit no object is made
gctrace replay --block-words=64 --nursery=1
status 2
-- reads
new a 0 0 15
new b 0 0 15
new c 0 0 15
new d 0 0 15
new e 0 0 15
collect 0
new f 0 0 15
-- writes
auto 0: 4 kept, 0 freed
worker 0: 4 won, 4 scanned
-- tells
gctrace: line 7: unknown event
";
