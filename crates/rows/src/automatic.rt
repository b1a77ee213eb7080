//! Traces with collections that a full nursery starts, and what they print.

pub(crate) const ROWS: &str =
    "== four objects of 16 words fill the nursery, and the fifth finds no room
gctrace run --block-words 64 --nursery 1
status 0
-- reads
new a 0 0 15
drop a
new b 0 0 15
new c 0 0 15
new d 0 0 15
new e 0 0 15
census
-- writes
auto 0: 3 kept, 1 freed
gen 0 step 0: 1 objects 16 words
gen 0 step 1: 3 objects 48 words
gen 1 step 0: 0 objects 0 words
large: 0 objects 0 words
roots: 4
remembered: 0
-- tells
== one word is left in the first block, which was left; the second is full
gctrace run --block-words 64 --nursery 2
status 0
-- reads
new a 0 0 15
new b 0 0 15
new c 0 0 15
new d 0 0 14
new e 0 0 15
new f 0 0 15
new g 0 0 15
new h 0 0 15
new i 0 0 0
-- writes
auto 0: 8 kept, 0 freed
-- tells
== one word is left, which an object of one word takes and one of two doesn't
gctrace run --block-words 64 --nursery 1
status 0
-- reads
new a 0 0 15
new b 0 0 15
new c 0 0 15
new d 0 0 9
new e 0 0 4
new f 0 0 1
new g 0 0 15
new h 0 0 15
new i 0 0 15
new j 0 0 12
new k 0 0 0
new l 0 0 0
-- writes
auto 0: 5 kept, 0 freed
auto 0: 11 kept, 0 freed
-- tells
== survivors age: the second collection finds a pointer from the first step to the nursery, and one object of that step dead
gctrace run --block-words 64 --nursery 1
status 0
-- reads
new a 0 15 0
new b 0 0 15
new c 0 0 15
set a 0 b
set a 1 c
drop b
drop c
new d 0 0 15
drop d
new e 0 0 15
drop e
new f 0 0 15
new g 0 0 15
new h 0 15 0
set a 2 g
set a 1 nil
set h 14 a
drop g
new i 0 0 15
new j 0 0 15
census
heap
-- writes
auto 0: 3 kept, 1 freed
auto 0: 5 kept, 2 freed
gen 0 step 0: 2 objects 32 words
gen 0 step 1: 3 objects 48 words
gen 1 step 0: 2 objects 32 words
large: 0 objects 0 words
roots: 5
remembered: 1
root a #1
root f #2
root h #3
root i #4
root j #5
#1 gen 1 step 0 ptrs [#6 nil #7 nil nil nil nil nil nil nil nil nil nil nil nil] words []
#2 gen 0 step 1 ptrs [] words [0 0 0 0 0 0 0 0 0 0 0 0 0 0 0]
#3 gen 0 step 1 ptrs [nil nil nil nil nil nil nil nil nil nil nil nil nil nil #1] words []
#4 gen 0 step 0 ptrs [] words [0 0 0 0 0 0 0 0 0 0 0 0 0 0 0]
#5 gen 0 step 0 ptrs [] words [0 0 0 0 0 0 0 0 0 0 0 0 0 0 0]
#6 gen 1 step 0 ptrs [] words [0 0 0 0 0 0 0 0 0 0 0 0 0 0 0]
#7 gen 0 step 1 ptrs [] words [0 0 0 0 0 0 0 0 0 0 0 0 0 0 0]
-- tells
== the second mutator's nursery is full, then the first one has room for four again
gctrace run --block-words 16 --mutators 2 --nursery 1
status 0
-- reads
new a 1 0 3
new b 1 0 3
new c 1 0 3
new d 1 0 3
new e 0 0 3
new f 1 0 3
new g 0 0 3
new h 0 0 3
new i 0 0 3
new j 0 0 3
new k 1 0 3
new l 1 0 3
new m 1 0 3
census
new n 1 0 3
new o 0 0 3
census
-- writes
auto 0: 5 kept, 0 freed
gen 0 step 0: 8 objects 32 words
gen 0 step 1: 5 objects 20 words
gen 1 step 0: 0 objects 0 words
large: 0 objects 0 words
roots: 13
remembered: 0
auto 0: 13 kept, 0 freed
gen 0 step 0: 2 objects 8 words
gen 0 step 1: 8 objects 32 words
gen 1 step 0: 5 objects 20 words
large: 0 objects 0 words
roots: 15
remembered: 0
-- tells
== a collection by command empties each nursery too, so nothing is collected at the fifth object
gctrace run --block-words 16 --mutators 2 --nursery 1
status 0
-- reads
new a 1 0 3
new b 1 0 3
new c 1 0 3
new d 1 0 3
drop a
collect 1
new e 1 0 3
-- writes
collected 1: 3 kept, 1 freed
-- tells
== fault before the collection: name in use
gctrace run --block-words 64 --nursery 1
status 2
-- reads
new a 0 0 15
new b 0 0 15
new c 0 0 15
new d 0 0 15
new d 0 0 15
-- writes
-- tells
gctrace: line 5: name in use
== fault before the collection: no such mutator
gctrace run --block-words 64 --nursery 1
status 2
-- reads
new a 0 0 15
new b 0 0 15
new c 0 0 15
new d 0 0 15
new e 1 0 15
-- writes
-- tells
gctrace: line 5: no such mutator
== fault before the collection: too big
gctrace run --block-words 64 --nursery 1
status 2
-- reads
new a 0 0 15
new b 0 0 15
new c 0 0 15
new d 0 0 15
new e 0 100001 15
-- writes
-- tells
gctrace: line 5: too big
== fault before the collection: wrong number of words
gctrace run --block-words 64 --nursery 1
status 2
-- reads
new a 0 0 15
new b 0 0 15
new c 0 0 15
new d 0 0 15
new e 0 0
-- writes
-- tells
gctrace: line 5: wrong number of words
== eight objects of 16 words want two blocks, and one is free
gctrace run --generations 1 --block-words 64 --nursery 2 --blocks 3
status 1
-- reads
census
new a 0 0 15
new b 0 0 15
new c 0 0 15
new d 0 0 15
new e 0 0 15
new f 0 0 15
new g 0 0 15
new h 0 0 15
new i 0 0 15
census
-- writes
gen 0 step 0: 0 objects 0 words
large: 0 objects 0 words
roots: 0
remembered: 0
-- tells
gctrace: line 10: heap full
== four of them fit into the one block, and that is all
gctrace run --generations 1 --block-words 64 --nursery 2 --blocks 3
status 1
-- reads
new a 0 0 15
new b 0 0 15
new c 0 0 15
new d 0 0 15
new x 0 0 15
drop x
new x 0 0 15
drop x
new x 0 0 15
drop x
new x 0 0 15
drop x
new x 0 0 15
new x1 0 0 15
new x2 0 0 15
new x3 0 0 15
new x4 0 0 15
new x5 0 0 15
new x6 0 0 15
new x7 0 0 15
new x8 0 0 15
-- writes
auto 0: 4 kept, 4 freed
-- tells
gctrace: line 21: heap full
== two blocks take the first eight, and then none is free
gctrace run --generations 1 --block-words 64 --nursery 2 --blocks 4
status 1
-- reads
new a 0 0 15
new b 0 0 15
new c 0 0 15
new d 0 0 15
new e 0 0 15
new f 0 0 15
new g 0 0 15
new h 0 0 15
new i 0 0 15
new j 0 0 15
new k 0 0 15
new l 0 0 15
new m 0 0 15
new n 0 0 15
new o 0 0 15
new p 0 0 15
new q 0 0 15
-- writes
auto 0: 8 kept, 0 freed
-- tells
gctrace: line 17: heap full
";
