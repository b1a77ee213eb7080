//! Traces whose collections have schedules.

pub(crate) const ROWS: &str = "== fault of a schedule: collect 0, idle 0, idle 1, wake 0
gctrace replay --threads 2
status 2
-- reads
collect 0
idle 0
idle 1
wake 0
-- writes
-- tells
gctrace: line 4: event not lawful
== fault of a schedule: collect 0, take 0 2
gctrace replay --generations 1 --threads 2
status 2
-- reads
collect 0
take 0 2
-- writes
-- tells
gctrace: line 2: event not lawful
== fault of a schedule: collect 0, look 18446744073709551615
gctrace replay --generations 1 --threads 2
status 2
-- reads
collect 0
look 18446744073709551615
-- writes
-- tells
gctrace: line 2: event not lawful
== fault of a schedule: collect 0, own 0 big
gctrace replay --generations 1
status 2
-- reads
collect 0
own 0 big
-- writes
-- tells
gctrace: line 2: bad number
== fault of a schedule: collect 0, collect 0
gctrace replay --generations 1
status 2
-- reads
collect 0
collect 0
-- writes
-- tells
gctrace: line 2: unknown event
== fault of a schedule: collect 0, idle 0, commit
gctrace replay --generations 1
status 2
-- reads
collect 0
idle 0
commit
-- writes
-- tells
gctrace: line 3: collection not ended
== fault of a schedule: collect 0, look
gctrace replay --generations 1
status 2
-- reads
collect 0
look
-- writes
-- tells
gctrace: line 2: wrong number of words
== fault of a schedule: finish
gctrace replay --generations 1
status 2
-- reads
finish
-- writes
-- tells
gctrace: line 1: unknown command
== fault of a schedule: collect 1, finish, commit
gctrace replay --generations 1
status 2
-- reads
collect 1
finish
commit
-- writes
-- tells
gctrace: line 1: no such generation
== unfinished schedule after a census
gctrace replay --generations 1
status 2
-- reads
census
collect 0
idle 0
-- writes
gen 0 step 0: 0 objects 0 words
large: 0 objects 0 words
roots: 0
remembered: 0
-- tells
gctrace: line 2: unfinished schedule
== schedule wants a block
gctrace replay --threads 2 --generations 1 --block-words 64 --nursery 2 --blocks 3
status 1
-- reads
new a 0 0 15
new b 0 0 15
new c 0 0 15
new d 0 0 15
new e 0 0 15
collect 0
look 0
race 0
look 1
-- writes
-- tells
gctrace: line 9: heap full
== sixteen workers take turns, and the first has two objects
gctrace replay --generations 1 --block-words 64 --threads 16
status 0
-- reads
new n00 0 0 1
new n01 0 0 1
new n02 0 0 1
new n03 0 0 1
new n04 0 0 1
new n05 0 0 1
new n06 0 0 1
new n07 0 0 1
new n08 0 0 1
new n09 0 0 1
new n10 0 0 1
new n11 0 0 1
new n12 0 0 1
new n13 0 0 1
new n14 0 0 1
new n15 0 0 1
new n16 0 0 1
collect 0
finish
commit
-- writes
collected 0: 17 kept, 0 freed
worker 0: 2 won, 2 scanned
worker 1: 1 won, 1 scanned
worker 2: 1 won, 1 scanned
worker 3: 1 won, 1 scanned
worker 4: 1 won, 1 scanned
worker 5: 1 won, 1 scanned
worker 6: 1 won, 1 scanned
worker 7: 1 won, 1 scanned
worker 8: 1 won, 1 scanned
worker 9: 1 won, 1 scanned
worker 10: 1 won, 1 scanned
worker 11: 1 won, 1 scanned
worker 12: 1 won, 1 scanned
worker 13: 1 won, 1 scanned
worker 14: 1 won, 1 scanned
worker 15: 1 won, 1 scanned
-- tells
== too many workers
gctrace replay --generations 1 --threads 17
status 3
-- reads
-- writes
-- tells
gctrace: bad configuration
== a block is full while it is in hand, and the next copy retires it there: it is never exported
gctrace replay --threads 1 --generations 1 --block-words 64
status 0
-- reads
new a 0 4 11
new b 0 0 15
new c 0 0 15
new d 0 0 15
new e 0 0 0
set a 0 b
set a 1 c
set a 2 d
set a 3 e
drop b
drop c
drop d
drop e
collect 0
look 0
race 0
own 0 0
look 0
race 0
look 0
race 0
look 0
race 0
look 0
race 0
scan 0
scan 0
scan 0
scan 0
own 0 0
scan 0
idle 0
end 0
commit
-- writes
collected 0: 5 kept, 0 freed
worker 0: 5 won, 5 scanned
-- tells
== a worker that was idle wakes, and the ends come in any order
gctrace replay --threads 2
status 0
-- reads
collect 0
idle 0
wake 0
idle 0
idle 1
end 1
end 0
commit
-- writes
collected 0: 0 kept, 0 freed
worker 0: 0 won, 0 scanned
worker 1: 0 won, 0 scanned
-- tells
== ten objects of four words in blocks of 16: the block with the first four grandchildren is exported, and the other worker scans it
gctrace replay --threads 2 --generations 1 --block-words 16
status 0
-- reads
new l 0 3 0
new c 0 3 0
set l 0 c
new g 0 0 3
set c 0 g
drop g
new g 0 0 3
set c 1 g
drop g
new g 0 0 3
set c 2 g
drop g
drop c
new c 0 3 0
set l 1 c
new g 0 0 3
set c 0 g
drop g
new g 0 0 3
set c 1 g
drop g
new g 0 0 3
set c 2 g
drop g
drop c
new c 0 0 3
set l 2 c
drop c
collect 0
look 0
race 0
# worker 1 has nothing to do yet
own 0 0
look 0
race 0
look 0
race 0
look 0
race 0
scan 0
look 0
race 0
look 0
race 0
look 0
race 0
scan 0
look 0
race 0
look 0
race 0
look 0
race 0
scan 0
scan 0
export 0
take 1 0
scan 1
own 0 0
scan 1
scan 0
scan 1
scan 0
scan 1
idle 1
idle 0
end 0
end 1
commit
-- writes
collected 0: 10 kept, 0 freed
worker 0: 10 won, 6 scanned
worker 1: 0 won, 4 scanned
block 0.0: 4 objects, taken by 1
-- tells
== a worker has a block for each of two destinations, and owns first the second
gctrace replay --block-words 64
status 0
-- reads
new a 0 0 0
collect 0
finish
commit
new b 0 0 1
collect 0
look 0
race 0
look 0
race 0
own 0 1
scan 0
own 0 0
scan 0
idle 0
end 0
commit
-- writes
collected 0: 1 kept, 0 freed
worker 0: 1 won, 1 scanned
collected 0: 2 kept, 0 freed
worker 0: 2 won, 2 scanned
-- tells
== of two destinations there is no third
gctrace replay --block-words 64
status 2
-- reads
new a 0 0 0
collect 0
finish
commit
new b 0 0 1
collect 0
look 0
race 0
look 0
race 0
own 0 2
scan 0
own 0 0
scan 0
idle 0
end 0
commit
-- writes
collected 0: 1 kept, 0 freed
worker 0: 1 won, 1 scanned
-- tells
gctrace: line 11: event not lawful
== both workers propose a copy: worker 1 wins, and worker 0 takes its own back
gctrace replay --threads 2 --generations 1 --block-words 64 --nursery 1 --blocks 3
status 0
-- reads
new a 0 1 0
set a 0 a
get b a 0
collect 0
look 0
look 1
race 1
race 0
own 1 0
look 1
scan 1
idle 0
idle 1
end 0
end 1
commit
heap
-- writes
collected 0: 1 kept, 0 freed
worker 0: 0 won, 0 scanned
worker 1: 1 won, 1 scanned
root a #1
root b #1
#1 gen 0 step 0 ptrs [#1] words []
-- tells
== the block that worker 0 drew went back empty, so one block is free for the second collection, and suffices
gctrace replay --threads 2 --generations 1 --block-words 64 --nursery 1 --blocks 3
status 0
-- reads
new a 0 1 0
set a 0 a
get b a 0
collect 0
look 0
look 1
race 1
race 0
own 1 0
look 1
scan 1
idle 0
idle 1
end 0
end 1
commit
heap
collect 0
finish
commit
-- writes
collected 0: 1 kept, 0 freed
worker 0: 0 won, 0 scanned
worker 1: 1 won, 1 scanned
root a #1
root b #1
#1 gen 0 step 0 ptrs [#1] words []
collected 0: 1 kept, 0 freed
worker 0: 1 won, 1 scanned
worker 1: 0 won, 0 scanned
-- tells
== what comes next by itself comes to the end, also after some events; each collection has a schedule of its own
gctrace replay --generations 1 --threads 2
status 0
-- reads
new a 0 1 0
set a 0 a
new b 0 0 1
drop b
collect 0
look 0

finish
commit
collect 0
finish
finish
commit
heap
-- writes
collected 0: 1 kept, 1 freed
worker 0: 1 won, 1 scanned
worker 1: 0 won, 0 scanned
collected 0: 1 kept, 0 freed
worker 0: 1 won, 1 scanned
worker 1: 0 won, 0 scanned
root a #1
#1 gen 0 step 0 ptrs [#1] words []
-- tells
";
