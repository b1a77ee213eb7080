//! Worked traces with large objects, which have blocks of their own, and what they print.

pub(crate) const ROWS: &str = "== last small and first large object
gctrace run --block-words 64
status 0
-- reads
new a 0 0 15
new b 0 0 16
collect 0
census
-- writes
collected 0: 2 kept, 0 freed
gen 0 step 0: 0 objects 0 words
gen 0 step 1: 1 objects 16 words
gen 1 step 0: 0 objects 0 words
large: 1 objects 17 words
roots: 2
remembered: 0
-- tells
== largest object
gctrace run
status 0
-- reads
new a 0 100000 100000
census
-- writes
gen 0 step 0: 0 objects 0 words
gen 0 step 1: 0 objects 0 words
gen 1 step 0: 0 objects 0 words
large: 1 objects 200001 words
roots: 1
remembered: 0
-- tells
== large object wants blocks
gctrace run --block-words 64 --nursery 1 --blocks 3
status 1
-- reads
new a 0 0 127
drop a
collect 0
new b 0 0 127
new c 0 0 16
-- writes
collected 0: 0 kept, 1 freed
-- tells
gctrace: line 5: heap full
== large object collects nothing, though a collection would make room
gctrace run --block-words 64 --nursery 1 --blocks 3
status 1
-- reads
new a 0 0 127
drop a
new b 0 0 16
-- writes
-- tells
gctrace: line 3: heap full
== one word more than two blocks hold
gctrace run --block-words 64 --nursery 1 --blocks 3
status 1
-- reads
new a 0 0 128
-- writes
-- tells
gctrace: line 1: heap full
== name that is in use comes before want of blocks
gctrace run --block-words 64 --nursery 1 --blocks 3
status 2
-- reads
new a 0 0 1
new a 0 0 128
-- writes
-- tells
gctrace: line 2: name in use
== large object of three blocks, where none is free
gctrace run --block-words 64 --nursery 1 --blocks 1
status 1
-- reads
new a 0 0 128
-- writes
-- tells
gctrace: line 1: heap full
== large object of three blocks, where one is free
gctrace run --block-words 64 --nursery 1 --blocks 2
status 1
-- reads
new a 0 0 128
-- writes
-- tells
gctrace: line 1: heap full
== large object of three blocks, where two are free
gctrace run --block-words 64 --nursery 1 --blocks 3
status 1
-- reads
new a 0 0 128
-- writes
-- tells
gctrace: line 1: heap full
== large object of three blocks, where three are free
gctrace run --block-words 64 --nursery 1 --blocks 4
status 0
-- reads
new a 0 0 128
-- writes
-- tells
== large object leads to eight small ones, which take two blocks, where none is free
gctrace run --generations 1 --block-words 16 --nursery 2 --blocks 3
status 1
-- reads
new l 0 8 0
new o 0 0 3
set l 0 o
drop o
new o 0 0 3
set l 1 o
drop o
new o 0 0 3
set l 2 o
drop o
new o 0 0 3
set l 3 o
drop o
new o 0 0 3
set l 4 o
drop o
new o 0 0 3
set l 5 o
drop o
new o 0 0 3
set l 6 o
drop o
new o 0 0 3
set l 7 o
drop o
collect 0
collect 0
-- writes
-- tells
gctrace: line 26: heap full
== large object leads to eight small ones, which take two blocks, where one is free
gctrace run --generations 1 --block-words 16 --nursery 2 --blocks 4
status 1
-- reads
new l 0 8 0
new o 0 0 3
set l 0 o
drop o
new o 0 0 3
set l 1 o
drop o
new o 0 0 3
set l 2 o
drop o
new o 0 0 3
set l 3 o
drop o
new o 0 0 3
set l 4 o
drop o
new o 0 0 3
set l 5 o
drop o
new o 0 0 3
set l 6 o
drop o
new o 0 0 3
set l 7 o
drop o
collect 0
collect 0
-- writes
-- tells
gctrace: line 26: heap full
== large object leads to eight small ones, which take two blocks, where two are free
gctrace run --generations 1 --block-words 16 --nursery 2 --blocks 5
status 1
-- reads
new l 0 8 0
new o 0 0 3
set l 0 o
drop o
new o 0 0 3
set l 1 o
drop o
new o 0 0 3
set l 2 o
drop o
new o 0 0 3
set l 3 o
drop o
new o 0 0 3
set l 4 o
drop o
new o 0 0 3
set l 5 o
drop o
new o 0 0 3
set l 6 o
drop o
new o 0 0 3
set l 7 o
drop o
collect 0
collect 0
-- writes
collected 0: 9 kept, 0 freed
-- tells
gctrace: line 27: heap full
== pointer to a large object is read
gctrace run --block-words 64
status 0
-- reads
new a 0 1 0
new b 0 0 16
put b 15 7
set a 0 b
drop b
get c a 0
drop a
collect 0
heap
census
-- writes
collected 0: 1 kept, 1 freed
root c #1
#1 gen 0 step 1 ptrs [] words [0 0 0 0 0 0 0 0 0 0 0 0 0 0 0 7]
gen 0 step 0: 0 objects 0 words
gen 0 step 1: 0 objects 0 words
gen 1 step 0: 0 objects 0 words
large: 1 objects 17 words
roots: 1
remembered: 0
-- tells
== large object is remembered
gctrace run --block-words 64
status 0
-- reads
new l 0 1 20
collect 0
collect 0
new b 0 0 0
set l 0 b
drop b
collect 0
census
-- writes
collected 0: 1 kept, 0 freed
collected 0: 1 kept, 0 freed
collected 0: 1 kept, 0 freed
gen 0 step 0: 0 objects 0 words
gen 0 step 1: 1 objects 1 words
gen 1 step 0: 0 objects 0 words
large: 1 objects 22 words
roots: 1
remembered: 1
-- tells
== the collection itself makes the pointer of a large object an old one, and a large object points to a younger large one
gctrace run --block-words 64
status 0
-- reads
new l 0 2 14
put l 3 7
collect 0
new m 0 1 15
set l 1 m
set m 0 l
new b 0 0 1
put b 0 9
set l 0 b
drop b
drop m
collect 0
census
collect 1
heap
drop l
collect 1
census
-- writes
collected 0: 1 kept, 0 freed
collected 0: 3 kept, 0 freed
gen 0 step 0: 0 objects 0 words
gen 0 step 1: 1 objects 2 words
gen 1 step 0: 0 objects 0 words
large: 2 objects 34 words
roots: 1
remembered: 1
collected 1: 3 kept, 0 freed
root l #1
#1 gen 1 step 0 ptrs [#2 #3] words [0 0 0 7 0 0 0 0 0 0 0 0 0 0]
#2 gen 1 step 0 ptrs [] words [9]
#3 gen 1 step 0 ptrs [#1] words [0 0 0 0 0 0 0 0 0 0 0 0 0 0 0]
collected 1: 0 kept, 3 freed
gen 0 step 0: 0 objects 0 words
gen 0 step 1: 0 objects 0 words
gen 1 step 0: 0 objects 0 words
large: 0 objects 0 words
roots: 0
remembered: 0
-- tells
== large object leads to thirteen small ones, whose blocks one worker exports and both take
gctrace replay --threads 2 --generations 1 --block-words 16
status 0
-- reads
new l 0 13 0
new o 0 0 3
set l 0 o
drop o
new o 0 0 3
set l 1 o
drop o
new o 0 0 3
set l 2 o
drop o
new o 0 0 3
set l 3 o
drop o
new o 0 0 3
set l 4 o
drop o
new o 0 0 3
set l 5 o
drop o
new o 0 0 3
set l 6 o
drop o
new o 0 0 3
set l 7 o
drop o
new o 0 0 3
set l 8 o
drop o
new o 0 0 3
set l 9 o
drop o
new o 0 0 3
set l 10 o
drop o
new o 0 0 3
set l 11 o
drop o
new o 0 0 3
set l 12 o
drop o
collect 0
look 0
race 0
own 0 large
look 0
race 0
look 0
race 0
look 0
race 0
look 0
race 0
look 0
race 0
look 0
race 0
look 0
race 0
look 0
race 0
look 0
race 0
look 0
race 0
look 0
race 0
look 0
race 0
look 0
race 0
scan 0
export 0
export 0
export 0
take 1 0
take 0 0
scan 1
scan 1
scan 1
scan 1
take 1 0
scan 0
scan 0
scan 0
scan 0
scan 1
scan 1
scan 1
scan 1
own 0 0
scan 0
idle 0
idle 1
end 0
end 1
commit
-- writes
collected 0: 14 kept, 0 freed
worker 0: 14 won, 6 scanned
worker 1: 0 won, 8 scanned
block 0.0: 4 objects, taken by 1
block 0.1: 4 objects, taken by 0
block 0.2: 4 objects, taken by 1
-- tells
== block changes hands of which one object is scanned
gctrace replay --threads 2 --generations 1 --block-words 16
status 0
-- reads
new m 0 4 0
new a 0 0 3
new l 0 4 0
set m 0 a
set m 1 l
new o 0 0 3
set l 0 o
drop o
new o 0 0 3
set l 1 o
drop o
new o 0 0 3
set l 2 o
drop o
new o 0 0 3
set l 3 o
drop o
drop a
drop l
collect 0
look 0
race 0
own 0 large
look 0
race 0
look 0
race 0
look 0
look 0
scan 0
own 0 0
scan 0
own 0 large
look 0
race 0
look 0
race 0
look 0
race 0
look 0
race 0
scan 0
export 0
take 1 0
scan 1
scan 1
scan 1
own 0 0
scan 0
idle 0
idle 1
end 0
end 1
commit
-- writes
collected 0: 7 kept, 0 freed
worker 0: 7 won, 4 scanned
worker 1: 0 won, 3 scanned
block 0.0: 4 objects, taken by 1
-- tells
";
