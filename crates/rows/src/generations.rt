//! Worked traces of several generations, steps and mutators, with what they print.

pub(crate) const ROWS: &str = "== objects age
gctrace run --block-words 64
status 0
-- reads
new a 0 0 1
collect 0
heap
collect 0
heap
collect 0
heap
collect 1
heap
-- writes
collected 0: 1 kept, 0 freed
root a #1
#1 gen 0 step 1 ptrs [] words [0]
collected 0: 1 kept, 0 freed
root a #1
#1 gen 1 step 0 ptrs [] words [0]
collected 0: 0 kept, 0 freed
root a #1
#1 gen 1 step 0 ptrs [] words [0]
collected 1: 1 kept, 0 freed
root a #1
#1 gen 1 step 0 ptrs [] words [0]
-- tells
== objects age through three generations
gctrace run --generations 3 --steps 1
status 0
-- reads
new a 0 1 0
collect 0
new b 0 0 1
put b 0 5
set a 0 b
drop b
collect 0
heap
collect 1
census
collect 2
heap
drop a
collect 1
collect 2
-- writes
collected 0: 1 kept, 0 freed
collected 0: 1 kept, 0 freed
root a #1
#1 gen 1 step 0 ptrs [#2] words []
#2 gen 1 step 0 ptrs [] words [5]
collected 1: 2 kept, 0 freed
gen 0 step 0: 0 objects 0 words
gen 1 step 0: 0 objects 0 words
gen 2 step 0: 2 objects 4 words
large: 0 objects 0 words
roots: 1
remembered: 0
collected 2: 2 kept, 0 freed
root a #1
#1 gen 2 step 0 ptrs [#2] words []
#2 gen 2 step 0 ptrs [] words [5]
collected 1: 0 kept, 0 freed
collected 2: 0 kept, 2 freed
-- tells
== as many generations and steps as there may be
gctrace run --generations 4 --steps 4
status 0
-- reads
new a 0 0 0
collect 3
census
-- writes
collected 3: 1 kept, 0 freed
gen 0 step 0: 0 objects 0 words
gen 0 step 1: 1 objects 1 words
gen 0 step 2: 0 objects 0 words
gen 0 step 3: 0 objects 0 words
gen 1 step 0: 0 objects 0 words
gen 1 step 1: 0 objects 0 words
gen 1 step 2: 0 objects 0 words
gen 1 step 3: 0 objects 0 words
gen 2 step 0: 0 objects 0 words
gen 2 step 1: 0 objects 0 words
gen 2 step 2: 0 objects 0 words
gen 2 step 3: 0 objects 0 words
gen 3 step 0: 0 objects 0 words
large: 0 objects 0 words
roots: 1
remembered: 0
-- tells
== objects age through four generations
gctrace run --generations 4 --steps 1 --block-words 64
status 0
-- reads
new a 0 1 0
collect 0
collect 1
collect 2
new b 0 0 1
put b 0 7
set a 0 b
drop b
census
collect 0
collect 1
collect 2
heap
collect 3
-- writes
collected 0: 1 kept, 0 freed
collected 1: 1 kept, 0 freed
collected 2: 1 kept, 0 freed
gen 0 step 0: 1 objects 2 words
gen 1 step 0: 0 objects 0 words
gen 2 step 0: 0 objects 0 words
gen 3 step 0: 1 objects 2 words
large: 0 objects 0 words
roots: 1
remembered: 1
collected 0: 1 kept, 0 freed
collected 1: 1 kept, 0 freed
collected 2: 1 kept, 0 freed
root a #1
#1 gen 3 step 0 ptrs [#2] words []
#2 gen 3 step 0 ptrs [] words [7]
collected 3: 2 kept, 0 freed
-- tells
== sixteen workers collect by themselves for three mutators
gctrace run --generations 1 --block-words 16 --nursery 1 --mutators 3 --threads 16
status 0
-- reads
new a 2 0 3
new b 2 0 3
new c 2 0 3
new d 2 0 3
drop c
new e 2 0 3
census
-- writes
auto 0: 3 kept, 1 freed
gen 0 step 0: 4 objects 16 words
large: 0 objects 0 words
roots: 4
remembered: 0
-- tells
== three workers collect an object through four generations of four steps
gctrace run --generations 4 --steps 4 --threads 3
status 0
-- reads
new a 0 1 0
collect 3
collect 3
collect 3
collect 3
collect 3
collect 3
collect 3
collect 3
collect 3
collect 3
collect 3
collect 3
collect 3
collect 3
new b 0 0 1
set a 0 b
drop b
collect 2
heap
-- writes
collected 3: 1 kept, 0 freed
collected 3: 1 kept, 0 freed
collected 3: 1 kept, 0 freed
collected 3: 1 kept, 0 freed
collected 3: 1 kept, 0 freed
collected 3: 1 kept, 0 freed
collected 3: 1 kept, 0 freed
collected 3: 1 kept, 0 freed
collected 3: 1 kept, 0 freed
collected 3: 1 kept, 0 freed
collected 3: 1 kept, 0 freed
collected 3: 1 kept, 0 freed
collected 3: 1 kept, 0 freed
collected 3: 1 kept, 0 freed
collected 2: 1 kept, 0 freed
root a #1
#1 gen 3 step 0 ptrs [#2] words []
#2 gen 0 step 1 ptrs [] words [0]
-- tells
== old object points to a young one
gctrace run --block-words 64
status 0
-- reads
new a 0 1 0
collect 0
collect 0
new b 0 0 1
put b 0 7
set a 0 b
drop b
census
collect 0
heap
-- writes
collected 0: 1 kept, 0 freed
collected 0: 1 kept, 0 freed
gen 0 step 0: 1 objects 2 words
gen 0 step 1: 0 objects 0 words
gen 1 step 0: 1 objects 2 words
large: 0 objects 0 words
roots: 1
remembered: 1
collected 0: 1 kept, 0 freed
root a #1
#1 gen 1 step 0 ptrs [#2] words []
#2 gen 0 step 1 ptrs [] words [7]
-- tells
== young object that only an old dead one leads to
gctrace run --block-words 64
status 0
-- reads
new a 0 1 0
collect 0
collect 0
new b 0 0 0
set a 0 b
drop b
drop a
collect 0
collect 1
-- writes
collected 0: 1 kept, 0 freed
collected 0: 1 kept, 0 freed
collected 0: 1 kept, 0 freed
collected 1: 0 kept, 2 freed
-- tells
== pointer becomes an old one as its object moves
gctrace run --block-words 64
status 0
-- reads
new a 0 1 0
collect 0
new b 0 0 0
set a 0 b
drop b
collect 0
census
-- writes
collected 0: 1 kept, 0 freed
collected 0: 2 kept, 0 freed
gen 0 step 0: 0 objects 0 words
gen 0 step 1: 1 objects 1 words
gen 1 step 0: 1 objects 2 words
large: 0 objects 0 words
roots: 1
remembered: 1
-- tells
== pointer from an old object to a young one becomes nil
gctrace run --block-words 64
status 0
-- reads
new a 0 1 0
collect 0
collect 0
new b 0 0 0
set a 0 b
set a 0 nil
drop b
census
collect 0
-- writes
collected 0: 1 kept, 0 freed
collected 0: 1 kept, 0 freed
gen 0 step 0: 1 objects 1 words
gen 0 step 1: 0 objects 0 words
gen 1 step 0: 1 objects 2 words
large: 0 objects 0 words
roots: 1
remembered: 0
collected 0: 0 kept, 1 freed
-- tells
== mutators have nurseries of their own
gctrace run --block-words 16 --mutators 2 --nursery 1
status 0
-- reads
new a 0 0 3
new b 0 0 3
new c 0 0 3
new d 0 0 3
new e 1 0 3
new f 0 0 3
census
-- writes
auto 0: 5 kept, 0 freed
gen 0 step 0: 1 objects 4 words
gen 0 step 1: 5 objects 20 words
gen 1 step 0: 0 objects 0 words
large: 0 objects 0 words
roots: 6
remembered: 0
-- tells
== nursery of one of two mutators is full
gctrace run --block-words 16 --mutators 2 --nursery 1
status 2
-- reads
new a 0 0 3
new b 0 0 3
new c 0 0 3
new d 0 0 3
new e 1 0 3
census
collect 0
new f 0 0 3
new g 1 0 3
census
new h 2 0 0
-- writes
gen 0 step 0: 5 objects 20 words
gen 0 step 1: 0 objects 0 words
gen 1 step 0: 0 objects 0 words
large: 0 objects 0 words
roots: 5
remembered: 0
collected 0: 5 kept, 0 freed
gen 0 step 0: 2 objects 8 words
gen 0 step 1: 5 objects 20 words
gen 1 step 0: 0 objects 0 words
large: 0 objects 0 words
roots: 7
remembered: 0
-- tells
gctrace: line 11: no such mutator
== two generations: new a 0 1 0, new b 0 0 0, set a 1 b
gctrace run
status 2
-- reads
new a 0 1 0
new b 0 0 0
set a 1 b
-- writes
-- tells
gctrace: line 3: no such field
== two generations: new a 1 0 0
gctrace run
status 2
-- reads
new a 1 0 0
-- writes
-- tells
gctrace: line 1: no such mutator
== two generations: collect 2
gctrace run
status 2
-- reads
collect 2
-- writes
-- tells
gctrace: line 1: no such generation
== one block too few for the nursery
gctrace run --blocks 3
status 1
-- reads
-- writes
-- tells
gctrace: heap full
== one block too few for 16 nurseries
gctrace run --mutators 16 --nursery 64 --blocks 1023
status 1
-- reads
-- writes
-- tells
gctrace: heap full
== blocks enough for 16 nurseries
gctrace run --mutators 16 --nursery 64 --blocks 1024
status 0
-- reads
new a 15 0 0
-- writes
-- tells
";
