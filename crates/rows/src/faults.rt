//! Every fault of a line, of the heap and of the words, with its text and status.

pub(crate) const ROWS: &str = "== no command: frob
gctrace run --generations 1
status 2
-- reads
frob
-- writes
-- tells
gctrace: line 1: unknown command
== no command: New a 0 0 0
gctrace run --generations 1
status 2
-- reads
New a 0 0 0
-- writes
-- tells
gctrace: line 1: unknown command
== no command: Set a 0 b
gctrace run --generations 1
status 2
-- reads


Set a 0 b
-- writes
-- tells
gctrace: line 3: unknown command
== no command: gets b a 0
gctrace run --generations 1
status 2
-- reads
gets b a 0
-- writes
-- tells
gctrace: line 1: unknown command
== no command: look 0
gctrace run --generations 1
status 2
-- reads
look 0
-- writes
-- tells
gctrace: line 1: unknown command
== form: new a 0 0
gctrace run --generations 1
status 2
-- reads
new a 0 0
-- writes
-- tells
gctrace: line 1: wrong number of words
== form: new a 0 0 0 0
gctrace run --generations 1
status 2
-- reads
new a 0 0 0 0
-- writes
-- tells
gctrace: line 1: wrong number of words
== form: drop
gctrace run --generations 1
status 2
-- reads
drop
-- writes
-- tells
gctrace: line 1: wrong number of words
== form: drop nil nil
gctrace run --generations 1
status 2
-- reads
drop nil nil
-- writes
-- tells
gctrace: line 1: wrong number of words
== form: collect
gctrace run --generations 1
status 2
-- reads
collect
-- writes
-- tells
gctrace: line 1: wrong number of words
== form: collect 0 0
gctrace run --generations 1
status 2
-- reads
collect 0 0
-- writes
-- tells
gctrace: line 1: wrong number of words
== form: census 0
gctrace run --generations 1
status 2
-- reads
census 0
-- writes
-- tells
gctrace: line 1: wrong number of words
== form: drop nil
gctrace run --generations 1
status 2
-- reads
drop nil
-- writes
-- tells
gctrace: line 1: bad name
== form: new a/b x 0 0
gctrace run --generations 1
status 2
-- reads
new a/b x 0 0
-- writes
-- tells
gctrace: line 1: bad name
== form: new a23456789012345678901234567890123 0 0 0
gctrace run --generations 1
status 2
-- reads
new a23456789012345678901234567890123 0 0 0
-- writes
-- tells
gctrace: line 1: bad name
== form: new a -0 0 0
gctrace run --generations 1
status 2
-- reads
new a -0 0 0
-- writes
-- tells
gctrace: line 1: bad number
== form: new a 0 0x0 0
gctrace run --generations 1
status 2
-- reads
new a 0 0x0 0
-- writes
-- tells
gctrace: line 1: bad number
== form: new a 0 0 18446744073709551616
gctrace run --generations 1
status 2
-- reads
new a 0 0 18446744073709551616
-- writes
-- tells
gctrace: line 1: bad number
== form: collect +0
gctrace run --generations 1
status 2
-- reads
collect +0
-- writes
-- tells
gctrace: line 1: bad number
== against the heap: new a 0 0 0, new a 1 0 0
gctrace run --generations 1
status 2
-- reads
new a 0 0 0
new a 1 0 0
-- writes
-- tells
gctrace: line 2: name in use
== against the heap: new a 0 0 0, new a 0 0 x
gctrace run --generations 1
status 2
-- reads
new a 0 0 0
new a 0 0 x
-- writes
-- tells
gctrace: line 2: bad number
== against the heap: drop x
gctrace run
status 2
-- reads
drop x
-- writes
-- tells
gctrace: line 1: unknown name
== against the heap: new a 0 0 0, drop a, drop a
gctrace run --generations 1
status 2
-- reads
new a 0 0 0
drop a
drop a
-- writes
-- tells
gctrace: line 3: unknown name
== against the heap: new a 1 100001 0
gctrace run --generations 1
status 2
-- reads
new a 1 100001 0
-- writes
-- tells
gctrace: line 1: no such mutator
== against the heap: new a 0 100001 0
gctrace run --generations 1
status 2
-- reads
new a 0 100001 0
-- writes
-- tells
gctrace: line 1: too big
== against the heap: new a 0 0 100001
gctrace run --generations 1
status 2
-- reads
new a 0 0 100001
-- writes
-- tells
gctrace: line 1: too big
== against the heap: collect 1
gctrace run --generations 1
status 2
-- reads
collect 1
-- writes
-- tells
gctrace: line 1: no such generation
== against the heap: collect 18446744073709551615
gctrace run --generations 1
status 2
-- reads
collect 18446744073709551615
-- writes
-- tells
gctrace: line 1: no such generation
== objects of 128 fields
gctrace run --generations 1
status 0
-- reads
new a 0 63 64
new b 0 64 64
-- writes
-- tells
== the tenth object finds the nursery full, and the collection wants two blocks where one is free
gctrace run --generations=1 --block-words 16 --nursery=1 --blocks 3
status 1
-- reads
new a 0 0 3
new b 0 0 3
new c 0 0 3
new d 0 0 3
collect 0
new e 0 0 3
new f 0 0 3
new g 0 0 3
new h 0 0 2
new i 0 0 0
new j 0 0 0
census
-- writes
collected 0: 4 kept, 0 freed
-- tells
gctrace: line 11: heap full
== blocks wanting at the start
gctrace run --generations=1 --blocks 3
status 1
-- reads
new
-- writes
-- tells
gctrace: heap full
== output before a fault
gctrace run --generations 1
status 2
-- reads
new a 0 0 1
new b 0 0 0
drop b
collect 0
census
drop b
census
-- writes
collected 0: 1 kept, 1 freed
gen 0 step 0: 1 objects 2 words
large: 0 objects 0 words
roots: 1
remembered: 0
-- tells
gctrace: line 6: unknown name
== mistaken number
gctrace run --threads=x
status 3
-- reads
-- writes
-- tells
error: invalid value 'x' for '--threads <NUMBER>': invalid digit found in string

For more information, try '--help'.
== negative number
gctrace run --threads=-1
status 3
-- reads
-- writes
-- tells
error: invalid value '-1' for '--threads <NUMBER>': invalid digit found in string

For more information, try '--help'.
== no command of the program
gctrace
status 3
-- reads
-- writes
-- tells
error: 'gctrace' requires a subcommand but one was not provided
  [subcommands: run, replay, help]

Usage: gctrace <COMMAND>

For more information, try '--help'.
== mistaken command
gctrace walk
status 3
-- reads
-- writes
-- tells
error: unrecognized subcommand 'walk'

Usage: gctrace <COMMAND>

For more information, try '--help'.
== text of help of run
gctrace run --help
status 0
-- reads
-- writes
Carries out a trace. A nursery that is full is collected by itself.

Usage: gctrace run [OPTIONS]

Options:
      --threads <NUMBER>      Workers of a collection, each on a thread: 1 to 16 [default: 1]
      --mutators <NUMBER>     Mutators: 1 to 16 [default: 1]
      --generations <NUMBER>  Generations: 1 to 4 [default: 2]
      --steps <NUMBER>        Steps of each generation but the oldest: 1 to 4 [default: 2]
      --block-words <NUMBER>  Words of a block: 16 to 512, a multiple of 4 [default: 512]
      --nursery <NUMBER>      Blocks of each mutator's nursery: 1 to 64 [default: 4]
      --blocks <NUMBER>       Blocks in all: 1 to 65535 [default: 4096]
      --cells <KIND>          Kind of forwarding cells that threads share [default: word] [possible values: box, word]
  -h, --help                  Print help

Examples:
  gctrace run < trace
  gctrace run --generations 1 --block-words 64 --blocks 100 < trace
  gctrace run --threads 4 --cells box < trace
  gctrace replay --threads 2 < trace-with-schedules

Status:
  0  each line was carried out
  1  the heap is full, memory is wanting, or cells are not settled
  2  a line is faulty
  3  the words are mistaken, or an option is out of range
  4  a read or a write failed

The lines of traces and schedules are described in docs/FORMATS.md.
-- tells
== text of help of the program
gctrace --help
status 0
-- reads
-- writes
Carries out traces of heap commands, in a heap that is collected by copying.
A trace comes from standard input. What it writes goes to standard output, and a fault to standard error.

Usage: gctrace <COMMAND>

Commands:
  run     Carries out a trace. A nursery that is full is collected by itself.
  replay  Carries out a trace in which each collection has a schedule, up to its line `commit`.
  help    Print this message or the help of the given subcommand(s)

Options:
  -h, --help     Print help
  -V, --version  Print version

Examples:
  gctrace run < trace
  gctrace run --generations 1 --block-words 64 --blocks 100 < trace
  gctrace run --threads 4 --cells box < trace
  gctrace replay --threads 2 < trace-with-schedules

Status:
  0  each line was carried out
  1  the heap is full, memory is wanting, or cells are not settled
  2  a line is faulty
  3  the words are mistaken, or an option is out of range
  4  a read or a write failed

The lines of traces and schedules are described in docs/FORMATS.md.
-- tells
== text of help of replay
gctrace replay --help
status 0
-- reads
-- writes
Carries out a trace in which each collection has a schedule, up to its line `commit`.

Usage: gctrace replay [OPTIONS]

Options:
      --threads <NUMBER>      Workers of a collection, in turn: 1 to 16 [default: 1]
      --mutators <NUMBER>     Mutators: 1 to 16 [default: 1]
      --generations <NUMBER>  Generations: 1 to 4 [default: 2]
      --steps <NUMBER>        Steps of each generation but the oldest: 1 to 4 [default: 2]
      --block-words <NUMBER>  Words of a block: 16 to 512, a multiple of 4 [default: 512]
      --nursery <NUMBER>      Blocks of each mutator's nursery: 1 to 64 [default: 4]
      --blocks <NUMBER>       Blocks in all: 1 to 65535 [default: 4096]
  -h, --help                  Print help

Examples:
  gctrace run < trace
  gctrace run --generations 1 --block-words 64 --blocks 100 < trace
  gctrace run --threads 4 --cells box < trace
  gctrace replay --threads 2 < trace-with-schedules

Status:
  0  each line was carried out
  1  the heap is full, memory is wanting, or cells are not settled
  2  a line is faulty
  3  the words are mistaken, or an option is out of range
  4  a read or a write failed

The lines of traces and schedules are described in docs/FORMATS.md.
-- tells
== generations out of range: 0
gctrace run --generations=0
status 3
-- reads
-- writes
-- tells
gctrace: bad configuration
== generations out of range: 5
gctrace run --generations=5
status 3
-- reads
-- writes
-- tells
gctrace: bad configuration
== version by --version
gctrace --version
status 0
-- reads
-- writes
gctrace 0.1.0
-- tells
== version by -V
gctrace -V
status 0
-- reads
-- writes
gctrace 0.1.0
-- tells
";
