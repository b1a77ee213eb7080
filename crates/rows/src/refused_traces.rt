//! Traces whose requests for memory and draws of blocks are refused in turn.
use crate::refused::{Task, Trial, Wanted, assert_each_refused};
use heap::Sizes;
use std::test::Fail;
use trace_driver::CellKind;

/// The first collection fills more than one block.
const SMALL_RUN: &str = "new a 0 0 3
new b 0 1 2
new c 0 3 0
new d 0 0 3
new e 0 0 0
new f 0 0 3
set c 0 a
set c 2 c
put d 1 7
drop b
collect 0
> collected 0: 5 kept, 1 freed
census
> gen 0 step 0: 5 objects 17 words
> large: 0 objects 0 words
> roots: 5
> remembered: 0
get b c 0
new a-longer-name.of_32-bytes....... 0 0 3
collect 0
> collected 0: 6 kept, 0 freed
census
> gen 0 step 0: 6 objects 21 words
> large: 0 objects 0 words
> roots: 7
> remembered: 0
heap
> root a #1
> root a-longer-name.of_32-bytes....... #2
> root b #1
> root c #3
> root d #4
> root e #5
> root f #6
> #1 gen 0 step 0 ptrs [] words [0 0 0]
> #2 gen 0 step 0 ptrs [] words [0 0 0]
> #3 gen 0 step 0 ptrs [#1 nil #3] words []
> #4 gen 0 step 0 ptrs [] words [0 7 0]
> #5 gen 0 step 0 ptrs [] words []
> #6 gen 0 step 0 ptrs [] words [0 0 0]
";

/// Both workers propose a copy of `b`, and the one that comes last takes its own back.
const SMALL_REPLAY: &str = "new a 0 1 0
new b 0 1 1
set b 0 a
set a 0 b
new c 0 0 2
drop c
collect 0
look 0
look 1
race 0
finish
commit
> collected 0: 2 kept, 1 freed
> worker 0: 2 won, 2 scanned
> worker 1: 0 won, 0 scanned
census
> gen 0 step 0: 2 objects 5 words
> large: 0 objects 0 words
> roots: 2
> remembered: 0
";

/// The second and the last collection find the nursery of one mutator full.
const RUN: &str = "new a 0 1 2
new b 0 0 3
new c 0 0 3
new d 0 0 3
set a 0 b
drop b
drop c
new e 1 2 1
new a-longer-name.of_32-bytes....... 0 0 3
> auto 0: 4 kept, 1 freed
set a 0 a-longer-name.of_32-bytes.......
set e 1 a
drop a-longer-name.of_32-bytes.......
collect 1
> collected 1: 4 kept, 1 freed
census
> gen 0 step 0: 0 objects 0 words
> gen 1 step 0: 1 objects 4 words
> gen 2 step 0: 3 objects 12 words
> large: 0 objects 0 words
> roots: 3
> remembered: 1
new g 1 1 2
set e 0 g
drop g
new h 1 0 3
new i 1 0 3
new j 1 0 3
drop h
drop i
new k 1 0 3
> auto 0: 2 kept, 2 freed
new l 0 0 0
new m 0 0 0
new n 0 0 0
new o 0 0 0
heap
> root a #1
> root d #2
> root e #3
> root j #4
> root k #5
> root l #6
> root m #7
> root n #8
> root o #9
> #1 gen 2 step 0 ptrs [#10] words [0 0]
> #2 gen 2 step 0 ptrs [] words [0 0 0]
> #3 gen 2 step 0 ptrs [#11 #1] words [0]
> #4 gen 1 step 0 ptrs [] words [0 0 0]
> #5 gen 0 step 0 ptrs [] words [0 0 0]
> #6 gen 0 step 0 ptrs [] words []
> #7 gen 0 step 0 ptrs [] words []
> #8 gen 0 step 0 ptrs [] words []
> #9 gen 0 step 0 ptrs [] words []
> #10 gen 1 step 0 ptrs [] words [0 0 0]
> #11 gen 1 step 0 ptrs [nil] words [0 0]
";

/// The same, with a schedule for two workers.
const REPLAY: &str = "new a 0 1 2
new b 0 0 3
new c 0 0 3
new d 0 0 3
set a 0 b
drop b
drop c
new e 1 2 1
new a-longer-name.of_32-bytes....... 0 0 3
> auto 0: 4 kept, 1 freed
> worker 0: 3 won, 3 scanned
> worker 1: 1 won, 1 scanned
set a 0 a-longer-name.of_32-bytes.......
set e 1 a
drop a-longer-name.of_32-bytes.......
collect 1
look 1
finish
commit
> collected 1: 4 kept, 1 freed
> worker 0: 3 won, 3 scanned
> worker 1: 1 won, 1 scanned
new g 1 1 2
set e 0 g
drop g
new h 1 0 3
new i 1 0 3
new j 1 0 3
drop h
new k 1 0 3
> auto 0: 3 kept, 1 freed
> worker 0: 1 won, 1 scanned
> worker 1: 2 won, 2 scanned
census
> gen 0 step 0: 1 objects 4 words
> gen 1 step 0: 4 objects 16 words
> gen 2 step 0: 3 objects 12 words
> large: 0 objects 0 words
> roots: 6
> remembered: 2
";

/// The third collection finds a large object in a remembered set, and one that is gone.
const LARGE_RUN: &str = "new l 0 2 10
new m 0 1 20
new a 0 0 3
set l 0 a
set l 1 m
drop a
drop m
collect 0
> collected 0: 3 kept, 0 freed
collect 1
> collected 1: 3 kept, 0 freed
new n 1 1 5
new b 0 0 3
set n 0 b
set l 0 n
drop b
drop n
new d 0 0 9
drop d
collect 0
> collected 0: 2 kept, 1 freed
census
> gen 0 step 0: 0 objects 0 words
> gen 1 step 0: 1 objects 4 words
> gen 2 step 0: 1 objects 4 words
> large: 3 objects 42 words
> roots: 1
> remembered: 1
collect 1
> collected 1: 2 kept, 0 freed
heap
> root l #1
> #1 gen 2 step 0 ptrs [#2 #3] words [0 0 0 0 0 0 0 0 0 0]
> #2 gen 2 step 0 ptrs [#4] words [0 0 0 0 0]
> #3 gen 2 step 0 ptrs [nil] words [0 0 0 0 0 0 0 0 0 0 0 0 0 0 0 0 0 0 0 0]
> #4 gen 2 step 0 ptrs [] words [0 0 0]
collect 2
> collected 2: 4 kept, 1 freed
";

/// The pointer of an old large object is the second slot, so the second worker claims what it leads to.
const LARGE_REPLAY: &str = "new l 0 2 10
new m 0 1 20
new a 0 0 3
set l 0 a
set l 1 m
drop a
drop m
collect 0
finish
commit
> collected 0: 3 kept, 0 freed
> worker 0: 3 won, 3 scanned
> worker 1: 0 won, 0 scanned
new n 1 1 5
set l 0 n
drop n
collect 0
finish
commit
> collected 0: 1 kept, 0 freed
> worker 0: 0 won, 0 scanned
> worker 1: 1 won, 1 scanned
";

/// One generation and one mutator, whose nursery has two blocks of 16 words.
fn small_sizes() -> Sizes {
    Sizes {
        block_words: 16,
        blocks: 12,
        mutators: 1,
        nursery_blocks: 2,
        generations: 1,
        steps: 1,
    }
}

/// Three generations and two mutators, whose nurseries have one block of 16 words.
fn broad_sizes() -> Sizes {
    Sizes {
        block_words: 16,
        blocks: 40,
        mutators: 2,
        nursery_blocks: 1,
        generations: 3,
        steps: 1,
    }
}

/// A trial in a small heap, of which a read gives so many bytes.
fn small(name: &'static str, trace: &'static str, task: Task, piece: usize) -> Trial {
    Trial {
        name,
        trace,
        task,
        sizes: small_sizes(),
        piece,
    }
}

/// A trial in a heap of three generations and two mutators.
fn broad(name: &'static str, trace: &'static str, task: Task) -> Trial {
    Trial {
        name,
        trace,
        task,
        sizes: broad_sizes(),
        piece: usize::MAX,
    }
}

#[test]
fn each_request_is_refused(rt: HostRuntime) -> Result<(), Fail> {
    for (trial, least) in [
        (small("small run", SMALL_RUN, Task::Run, 10), 6),
        (
            small("small replay", SMALL_REPLAY, Task::Replay, usize::MAX),
            40,
        ),
        (broad("run", RUN, Task::Run), 40),
        (broad("replay", REPLAY, Task::Replay), 80),
        (broad("run with large objects", LARGE_RUN, Task::Run), 40),
        (
            broad(
                "run by threads over words",
                RUN,
                Task::Threads(CellKind::Word),
            ),
            80,
        ),
        (
            broad(
                "run by threads over boxes",
                LARGE_RUN,
                Task::Threads(CellKind::Box),
            ),
            80,
        ),
        (
            broad("replay with large objects", LARGE_REPLAY, Task::Replay),
            40,
        ),
    ] {
        assert_each_refused(&rt, &trial, Wanted::Memory, least)?;
    }
    Ok(())
}

#[test]
fn each_draw_is_refused(rt: HostRuntime) -> Result<(), Fail> {
    for (trial, least) in [
        (broad("replay", REPLAY, Task::Replay), 4),
        (
            broad("replay with large objects", LARGE_REPLAY, Task::Replay),
            6,
        ),
        (
            broad("run by threads", RUN, Task::Threads(CellKind::Word)),
            4,
        ),
        (
            broad(
                "run with large objects by threads",
                LARGE_RUN,
                Task::Threads(CellKind::Box),
            ),
            4,
        ),
    ] {
        assert_each_refused(&rt, &trial, Wanted::Blocks, least)?;
    }
    Ok(())
}
