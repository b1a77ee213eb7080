//! Worked traces with pointers and plain words.

pub(crate) const ROWS: &str = "== two kept one dropped
gctrace run --generations 1 --block-words 64
status 0
-- reads
new a 0 1 1
new b 0 0 2
put b 1 18446744073709551615
set a 0 b
drop b
new c 0 0 0
drop c
collect 0
census
heap
-- writes
collected 0: 2 kept, 1 freed
gen 0 step 0: 2 objects 6 words
large: 0 objects 0 words
roots: 1
remembered: 0
root a #1
#1 gen 0 step 0 ptrs [#2] words [0]
#2 gen 0 step 0 ptrs [] words [0 18446744073709551615]
-- tells
== cycles
gctrace run --generations 1 --block-words 64
status 0
-- reads
new a 0 1 0
set a 0 a
new b 0 1 0
new c 0 1 0
set b 0 c
set c 0 b
drop b
drop c
collect 0
heap
-- writes
collected 0: 1 kept, 2 freed
root a #1
#1 gen 0 step 0 ptrs [#1] words []
-- tells
== shared and cut off
gctrace run --generations 1
status 0
-- reads
heap
new a 0 3 0
new b 0 1 1
put b 0 5
set a 0 b
set a 2 b
set b 0 a
drop b
collect 0
heap
set a 0 nil
collect 0
set a 2 nil
collect 0
heap
-- writes
collected 0: 2 kept, 0 freed
root a #1
#1 gen 0 step 0 ptrs [#2 nil #2] words []
#2 gen 0 step 0 ptrs [#1] words [5]
collected 0: 2 kept, 0 freed
collected 0: 1 kept, 1 freed
root a #1
#1 gen 0 step 0 ptrs [nil nil nil] words []
-- tells
== get a field
gctrace run --block-words 64
status 0
-- reads
new a 0 1 0
new b 0 0 1
set a 0 b
drop b
get c a 0
put c 0 9
drop a
collect 0
heap
-- writes
collected 0: 1 kept, 1 freed
root c #1
#1 gen 0 step 1 ptrs [] words [9]
-- tells
== numbers by first occurrence: byte order of names is B, a, b, and what b leads to beyond them comes breadth first
gctrace run --generations 1 --block-words 64
status 0
-- reads
new b 0 3 0
new a 0 1 0
new B 0 0 1
put B 0 7
new x 0 1 0
new y 0 0 0
new z 0 0 2
set b 0 x
set b 1 B
set b 2 y
set x 0 z
set a 0 y
put z 1 9
drop x
drop y
drop z
heap
collect 0
heap
-- writes
root B #1
root a #2
root b #3
#1 gen 0 step 0 ptrs [] words [7]
#2 gen 0 step 0 ptrs [#4] words []
#3 gen 0 step 0 ptrs [#5 #1 #4] words []
#4 gen 0 step 0 ptrs [] words []
#5 gen 0 step 0 ptrs [#6] words []
#6 gen 0 step 0 ptrs [] words [0 9]
collected 0: 6 kept, 0 freed
root B #1
root a #2
root b #3
#1 gen 0 step 0 ptrs [] words [7]
#2 gen 0 step 0 ptrs [#4] words []
#3 gen 0 step 0 ptrs [#5 #1 #4] words []
#4 gen 0 step 0 ptrs [] words []
#5 gen 0 step 0 ptrs [#6] words []
#6 gen 0 step 0 ptrs [] words [0 9]
-- tells
== fields are written
gctrace run --generations 1 --block-words 64 --blocks 16
status 0
-- reads
new b 0 1 0
new a 0 2 1
new c 0 0 2
set a 0 b
set a 1 a
set a 1 nil
set b 0 a
put a 0 18446744073709551615
put c 1 7
heap
drop b
collect 0
drop c
collect 0
heap
-- writes
root a #1
root b #2
root c #3
#1 gen 0 step 0 ptrs [#2 nil] words [18446744073709551615]
#2 gen 0 step 0 ptrs [#1] words []
#3 gen 0 step 0 ptrs [] words [0 7]
collected 0: 3 kept, 0 freed
collected 0: 2 kept, 1 freed
root a #1
#1 gen 0 step 0 ptrs [#2 nil] words [18446744073709551615]
#2 gen 0 step 0 ptrs [#1] words []
-- tells
";
