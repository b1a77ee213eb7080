//! Faults of commands that read and write fields, with their texts and status.

pub(crate) const ROWS: &str = "== fault: new a 0 1 0, get b a 0
gctrace run
status 2
-- reads
new a 0 1 0
get b a 0
-- writes
-- tells
gctrace: line 2: nil pointer
== fault: new a 0 100001 0
gctrace run
status 2
-- reads
new a 0 100001 0
-- writes
-- tells
gctrace: line 1: too big
== fault: new a 1 0 0
gctrace run
status 2
-- reads
new a 1 0 0
-- writes
-- tells
gctrace: line 1: no such mutator
== first fault: new a 0 0 0, get a x 0
gctrace run
status 2
-- reads
new a 0 0 0
get a x 0
-- writes
-- tells
gctrace: line 2: name in use
== first fault: new a 0 1 0, set a 0 a, get a a 0
gctrace run
status 2
-- reads
new a 0 1 0
set a 0 a
get a a 0
-- writes
-- tells
gctrace: line 3: name in use
== first fault: get b a 0
gctrace run
status 2
-- reads
get b a 0
-- writes
-- tells
gctrace: line 1: unknown name
== first fault: new a 0 1 0, get b b 0
gctrace run
status 2
-- reads
new a 0 1 0
get b b 0
-- writes
-- tells
gctrace: line 2: unknown name
== first fault: new a 0 1 0, get b a 1
gctrace run
status 2
-- reads
new a 0 1 0
get b a 1
-- writes
-- tells
gctrace: line 2: no such field
== first fault: new a 0 0 1, get b a 0
gctrace run
status 2
-- reads
new a 0 0 1
get b a 0
-- writes
-- tells
gctrace: line 2: no such field
== first fault: get nil a/ 0x
gctrace run
status 2
-- reads
get nil a/ 0x
-- writes
-- tells
gctrace: line 1: bad name
== first fault: get b a 0x
gctrace run
status 2
-- reads
get b a 0x
-- writes
-- tells
gctrace: line 1: bad number
== first fault: get b a
gctrace run
status 2
-- reads
get b a
-- writes
-- tells
gctrace: line 1: wrong number of words
== fault: new a 0 1 0, new b 0 0 0, set a 1 b
gctrace run --generations 1
status 2
-- reads
new a 0 1 0
new b 0 0 0
set a 1 b
-- writes
-- tells
gctrace: line 3: no such field
== fault: new a 0 1 0, set a 1 x
gctrace run --generations 1
status 2
-- reads
new a 0 1 0
set a 1 x
-- writes
-- tells
gctrace: line 2: no such field
== fault: new a 0 1 0, set a 1 nil
gctrace run --generations 1
status 2
-- reads
new a 0 1 0
set a 1 nil
-- writes
-- tells
gctrace: line 2: no such field
== fault: new a 0 1 0, set a 0 x
gctrace run --generations 1
status 2
-- reads
new a 0 1 0
set a 0 x
-- writes
-- tells
gctrace: line 2: unknown name
== fault: new a 0 1 0, set x 1 a
gctrace run --generations 1
status 2
-- reads
new a 0 1 0
set x 1 a
-- writes
-- tells
gctrace: line 2: unknown name
== fault: new a 0 1 0, put a 0 1
gctrace run --generations 1
status 2
-- reads
new a 0 1 0
put a 0 1
-- writes
-- tells
gctrace: line 2: no such field
== fault: new a 0 0 1, put a 1 1
gctrace run --generations 1
status 2
-- reads
new a 0 0 1
put a 1 1
-- writes
-- tells
gctrace: line 2: no such field
== fault: put x 0 1
gctrace run --generations 1
status 2
-- reads
put x 0 1
-- writes
-- tells
gctrace: line 1: unknown name
== fault: new a 0 0 1, put a 0 18446744073709551616
gctrace run
status 2
-- reads
new a 0 0 1
put a 0 18446744073709551616
-- writes
-- tells
gctrace: line 2: bad number
== fault: put a 0 nil
gctrace run --generations 1
status 2
-- reads
put a 0 nil
-- writes
-- tells
gctrace: line 1: bad number
== fault: set x 18446744073709551616 nil
gctrace run --generations 1
status 2
-- reads
set x 18446744073709551616 nil
-- writes
-- tells
gctrace: line 1: bad number
== fault: set nil 0 a
gctrace run --generations 1
status 2
-- reads
set nil 0 a
-- writes
-- tells
gctrace: line 1: bad name
== fault: set a 0 a/b
gctrace run --generations 1
status 2
-- reads
set a 0 a/b
-- writes
-- tells
gctrace: line 1: bad name
== fault: set a 0
gctrace run --generations 1
status 2
-- reads
set a 0
-- writes
-- tells
gctrace: line 1: wrong number of words
== fault: put a 0 1 2
gctrace run --generations 1
status 2
-- reads
put a 0 1 2
-- writes
-- tells
gctrace: line 1: wrong number of words
== fault: heap a
gctrace run --generations 1
status 2
-- reads
heap a
-- writes
-- tells
gctrace: line 1: wrong number of words
== fault in 16 blocks: set a 0 nil
gctrace run --generations 1 --block-words 64 --blocks 16
status 2
-- reads
set a 0 nil
-- writes
-- tells
gctrace: line 1: unknown name
== fault in 16 blocks: new a 0 1 0, set a 1 b
gctrace run --generations 1 --block-words 64 --blocks 16
status 2
-- reads
new a 0 1 0
set a 1 b
-- writes
-- tells
gctrace: line 2: no such field
== fault in 16 blocks: new a 0 1 0, set a 0 b
gctrace run --generations 1 --block-words 64 --blocks 16
status 2
-- reads
new a 0 1 0
set a 0 b
-- writes
-- tells
gctrace: line 2: unknown name
== fault in 16 blocks: new a 0 1 0, set a 1 nil
gctrace run --generations 1 --block-words 64 --blocks 16
status 2
-- reads
new a 0 1 0
set a 1 nil
-- writes
-- tells
gctrace: line 2: no such field
== fault in 16 blocks: put a 0 1
gctrace run --generations 1 --block-words 64 --blocks 16
status 2
-- reads
put a 0 1
-- writes
-- tells
gctrace: line 1: unknown name
== fault in 16 blocks: new a 0 1 0, put a 0 1
gctrace run --generations 1 --block-words 64 --blocks 16
status 2
-- reads
new a 0 1 0
put a 0 1
-- writes
-- tells
gctrace: line 2: no such field
== fault in 16 blocks: new a 0 1 0, get b a 0
gctrace run --generations 1 --block-words 64 --blocks 16
status 2
-- reads
new a 0 1 0
get b a 0
-- writes
-- tells
gctrace: line 2: nil pointer
";
