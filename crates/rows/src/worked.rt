//! Worked traces, with what they print.

pub(crate) const ROWS: &str = "== first run
gctrace run --generations 1
status 0
-- reads
new a 0 0 1
new b 0 0 0
drop b
collect 0
census
-- writes
collected 0: 1 kept, 1 freed
gen 0 step 0: 1 objects 2 words
large: 0 objects 0 words
roots: 1
remembered: 0
-- tells
== empty trace
gctrace run --generations 1
status 0
-- reads
-- writes
-- tells
== trace without a command
gctrace run --generations 1
status 0
-- reads

# nothing
-- writes
-- tells
== no such generation
gctrace run --generations 1 --block-words 64
status 2
-- reads
new a 0 0 0
collect 0
collect 0
census
collect 1
-- writes
collected 0: 1 kept, 0 freed
collected 0: 1 kept, 0 freed
gen 0 step 0: 1 objects 1 words
large: 0 objects 0 words
roots: 1
remembered: 0
-- tells
gctrace: line 5: no such generation
== five objects of 16 words, for which one block of 64 words is too small
gctrace run --generations 1 --block-words 64 --nursery 2 --blocks 3
status 1
-- reads
new a 0 0 15
new b 0 0 15
new c 0 0 15
new d 0 0 15
new e 0 0 15
collect 0
-- writes
-- tells
gctrace: line 6: heap full
== five objects of 16 words in two blocks of 64 words
gctrace run --generations 1 --block-words 64 --nursery 2 --blocks 4
status 0
-- reads
new a 0 0 15
new b 0 0 15
new c 0 0 15
new d 0 0 15
new e 0 0 15
collect 0
-- writes
collected 0: 5 kept, 0 freed
-- tells
== eight objects of 16 words, for which two blocks of 64 words suffice
gctrace run --generations 1 --block-words 64 --nursery 2 --blocks 4
status 0
-- reads
new a 0 0 15
new b 0 0 15
new c 0 0 15
new d 0 0 15
new e 0 0 15
new f 0 0 15
new g 0 0 15
new h 0 0 15
collect 0
-- writes
collected 0: 8 kept, 0 freed
-- tells
== empty block returns
gctrace run --generations=1 --block-words=64 --nursery=1 --blocks=3
status 0
-- reads
new a 0 1 0
set a 0 a
collect 0
heap
collect 0
collect 0
drop a
collect 0
collect 0
new b 0 0 0
collect 0
-- writes
collected 0: 1 kept, 0 freed
root a #1
#1 gen 0 step 0 ptrs [#1] words []
collected 0: 1 kept, 0 freed
collected 0: 1 kept, 0 freed
collected 0: 0 kept, 1 freed
collected 0: 0 kept, 0 freed
collected 0: 1 kept, 0 freed
-- tells
== name of 32 bytes
gctrace run
status 0
-- reads
new aaaaaaaaaaaaaaaaaaaaaaaaaaaaaaaa 0 0 0
heap
-- writes
root aaaaaaaaaaaaaaaaaaaaaaaaaaaaaaaa #1
#1 gen 0 step 0 ptrs [] words []
-- tells
== bad configuration
gctrace run --block-words 18
status 3
-- reads
-- writes
-- tells
gctrace: bad configuration
";
