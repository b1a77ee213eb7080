//! How many requests for memory collections make: one uses again what the one before had, and boxes aren't counted. And want of blocks
//! is told before want of memory.
use crate::in_pieces::config_of;
use crate::refused::{Task, asked_by};
use forwarding::OpenGate;
use heap::{BadConfig, Sizes};
use heap_text::Counted;
use refusing::Refusing;
use std::alloc::{AllocError, AllocGlobal, Global};
use std::fmt::Write;
use std::process::Abort;
use std::sync::Wait;
use std::test::Fail;
use std::thread::Threads;
use trace_driver::{CellKind, CountedReader, Fault, replay, run};

/// One generation, whose objects all fit in one block.
fn one_generation() -> Sizes {
    Sizes {
        block_words: 512,
        blocks: 64,
        mutators: 1,
        nursery_blocks: 4,
        generations: 1,
        steps: 1,
    }
}

/// What makes a collection.
#[derive(Clone, Copy, Debug)]
enum Cause {
    /// A line of the trace.
    Command,
    /// A nursery that is full.
    FullNursery,
}

/// Lines that make a collection. A nursery has room for 2,048 objects of a word each.
fn push_collection(trace: &mut String, cause: Cause) -> Result<(), AllocError> {
    match cause {
        Cause::Command => trace.push_str("collect 0\n"),
        Cause::FullNursery => {
            for _object in 0..2_100 {
                trace.push_str("new d 0 0 0\ndrop d\n")?;
            }
            Ok(())
        }
    }
}

/// So many objects of a word each, which four collections keep.
fn trace_of(alloc: Global, objects: u32, cause: Cause) -> Result<String, AllocError> {
    let mut trace = String::new(alloc);
    for number in 0..objects {
        writeln!(&mut trace, "new n{number} 0 0 0")?;
    }
    for _collection in 0..4 {
        push_collection(&mut trace, cause)?;
    }
    Ok(trace)
}

/// How many requests a fifth collection makes, behind four of that cause.
fn asked_by_fifth<R: Threads + Wait + Sync + AllocGlobal + Abort>(
    rt: &R,
    task: Task,
    objects: u32,
    cause: Cause,
) -> Result<u64, Fail> {
    let mut trace = trace_of(rt.alloc(), objects, cause)?;
    let four = asked_by(rt, task, one_generation(), trace.as_str())?;
    trace.push_str("collect 0\n")?;
    let five = asked_by(rt, task, one_generation(), trace.as_str())?;
    Ok(five.saturating_sub(four))
}

/// Asserts that the lists of a collection of that cause are the next one's.
fn assert_used_again<R: Threads + Wait + Sync + AllocGlobal + Abort>(
    rt: &R,
    task: Task,
    cause: Cause,
    name: &str,
) -> Result<(), Fail> {
    // Two lists hold what was won and what was scanned. Of two workers each has a half of the slots, and since no block is full
    // it scans what it wins: so each of its lists has 200 entries, and those of one worker 400. A list that starts anew takes
    // a request for its first entries, and one more each time that it doubles, from 4 to 512 or to 256. So without those
    // of the collection before, one worker asks 14 times more for 400 objects than for two, and two workers 24 times more.
    // The rest depends little on how many objects there are.
    let few = asked_by_fifth(rt, task, 2, cause)?;
    let many = asked_by_fifth(rt, task, 400, cause)?;
    assert!(rt;
        many.saturating_sub(few) < 10,
        "{name}, {cause:?}: {few} for few, {many} for many"
    );
    Ok(())
}

#[test]
fn lists_are_used_again(rt: HostRuntime) -> Result<(), Fail> {
    for (name, task) in [
        ("one worker", Task::Run),
        ("words", Task::Threads(CellKind::Word)),
        ("boxes", Task::Threads(CellKind::Box)),
    ] {
        assert_used_again(&rt, task, Cause::Command, name)?;
        assert_used_again(&rt, task, Cause::FullNursery, name)?;
    }
    Ok(())
}

#[test]
fn boxes_are_made_elsewhere(rt: HostRuntime) -> Result<(), Fail> {
    // An empty heap has no boxes. The table of them comes from the runtime's own allocator, and that of words doesn't.
    let trace = "collect 0\ncollect 0\n";
    let words = Task::Threads(CellKind::Word);
    let boxes = Task::Threads(CellKind::Box);
    let by_words = asked_by(&rt, words, one_generation(), trace)?;
    let by_boxes = asked_by(&rt, boxes, one_generation(), trace)?;
    assert!(rt;
        by_boxes < by_words,
        "{by_boxes} by boxes, {by_words} by words"
    );
    Ok(())
}

/// What is told where one block is there for the two of the nursery, and this request for memory is refused.
fn told_without_blocks<R: Threads + Wait + Sync + AllocGlobal>(
    rt: &R,
    task: Task,
    refused: u64,
) -> Result<Result<(), Fault>, BadConfig> {
    let sizes = Sizes {
        blocks: 1,
        nursery_blocks: 2,
        ..one_generation()
    };
    let config = config_of(task, sizes)?;
    let refusing = Refusing::new(rt.alloc(), refused);
    let mut reader = CountedReader::new(b"new\n".as_slice());
    let mut writer = Counted::new(Vec::new(rt.alloc()));
    Ok(match task {
        Task::Run | Task::Threads(_) => {
            run(rt, &refusing, &mut reader, &mut writer, config, &OpenGate)
        }
        Task::Replay => replay(&refusing, &mut reader, &mut writer, config),
    })
}

/// Asserts that want of blocks is told whichever request for memory is refused.
fn assert_full_first<R: Threads + Wait + Sync + AllocGlobal + Abort>(
    rt: &R,
    task: Task,
) -> Result<(), BadConfig> {
    for refused in 0..20 {
        let told = told_without_blocks(rt, task, refused)?;
        assert_eq!(rt; told, Err(Fault::HeapFull(None)), "{refused}");
    }
    Ok(())
}

#[test]
fn want_of_blocks_is_told_first(rt: HostRuntime) -> Result<(), BadConfig> {
    for task in [
        Task::Run,
        Task::Threads(CellKind::Word),
        Task::Threads(CellKind::Box),
        Task::Replay,
    ] {
        assert_full_first(&rt, task)?;
    }
    Ok(())
}
