//! Schedules of two workers, and how far they come. Each is a row of a text:
//!
//! ```text
//! == its name
//! the heap
//! -- events
//! one a line, in the words of a schedule
//! -- ends
//! where they end, and whether something comes next
//! ```
use crate::heaps::{heap_of, seen};
use crate::in_turn::events::event_of;
use heap::{Heap, RootId, Sizes};
use machine::{Event, Machine, StepError};
use std::alloc::Global;
use std::process::Abort;
use std::test::Fail;

/// In the first schedule the workers find the shared object each by a root of its own, and the second one comes first.
const ROWS: &str = "== a race is lost
two share
-- events
look 0
race 0
look 1
race 1
own 0 0
own 1 0
look 0
look 1
race 1
race 0
scan 0
scan 1
scan 1
idle 0
idle 1
end 0
end 1
-- ends
all come; nothing comes next
== none wakes after the last
empty
-- events
idle 0
idle 1
wake 0
-- ends
event 2: not lawful; something comes next
== nothing is exported before it is copied
two share
-- events
export 0
-- ends
event 0: not lawful; something comes next
== nothing is taken before it is exported
two share
-- events
take 0 1
-- ends
event 0: not lawful; something comes next
== nothing large is taken in hand where nothing large is
two share
-- events
own 0 large
-- ends
event 0: not lawful; something comes next
== no block is left to the second worker
two share, with a block for copies
-- events
look 0
look 1
-- ends
event 1: heap full; something comes next
";

/// A schedule, the heap in which a collection has it, and how it ends.
#[derive(Clone, Copy)]
struct Row {
    name: &'static str,
    heap: &'static str,
    events: &'static str,
    ends: &'static str,
}

/// The row of a text, if it has the form of one.
fn row_of(text: &'static str) -> Option<Row> {
    let (head, rest) = text.split_once("\n-- events\n")?;
    let (name, heap) = head.split_once("\n")?;
    let (events, ends) = rest.split_once("-- ends\n")?;
    Some(Row {
        name,
        heap,
        events,
        ends,
    })
}

/// A heap of one generation, of so many blocks of 64 words, one of them a nursery's.
fn small_heap(alloc: Global, blocks: u64) -> Result<Heap, Fail> {
    let sizes = Sizes {
        block_words: 64,
        blocks,
        mutators: 1,
        nursery_blocks: 1,
        generations: 1,
        steps: 1,
    };
    heap_of(alloc, sizes)
}

/// A new object with one pointer, which leads where the root does.
fn add_holder(heap: &mut Heap, target: RootId) -> Result<(), Fail> {
    let holder = heap.allocate(0, 1, 0)?;
    heap.store(holder, 0, Some(target))?;
    Ok(())
}

/// Two objects with roots of their own that share a third, which has none.
fn add_shared(heap: &mut Heap) -> Result<(), Fail> {
    let shared = heap.allocate(0, 0, 1)?;
    add_holder(heap, shared)?;
    add_holder(heap, shared)?;
    heap.release(shared)?;
    Ok(())
}

/// The heap of that name.
fn heap_named(alloc: Global, name: &str) -> Result<Heap, Fail> {
    let (blocks, is_shared) = match name {
        "empty" => (3, false),
        "two share" => (3, true),
        "two share, with a block for copies" => (2, true),
        _ => return Err(Fail::from("no such heap")),
    };
    let mut heap = small_heap(alloc, blocks)?;
    if is_shared {
        add_shared(&mut heap)?;
    }
    Ok(heap)
}

/// The events of a text.
fn events_of(alloc: Global, text: &str) -> Result<Vec<Event>, Fail> {
    let mut events = Vec::new(alloc);
    for line in text.lines() {
        events.push(event_of(line)?)?;
    }
    Ok(events)
}

/// How far two workers come by these events in a collection of the heap, and whether something comes next then.
fn ran(
    alloc: Global,
    heap: &Heap,
    events: &[Event],
) -> Result<(Result<(), (usize, StepError)>, bool), Fail> {
    let mut machine = Machine::open(alloc, heap, 0, 2)?;
    let answer = machine.run(events);
    Ok((answer, machine.next_lawful().is_some()))
}

/// The same as a text.
fn told(
    alloc: Global,
    answer: Result<(), (usize, StepError)>,
    comes_next: bool,
) -> Result<String, Fail> {
    let next = if comes_next { "something" } else { "nothing" };
    match answer {
        Ok(()) => Ok(format!(in alloc; "all come; {next} comes next\n")?),
        Err((at, error)) => { Ok(format!(in alloc; "event {at}: {error}; {next} comes next\n")?) }
    }
}

/// How the schedule of a row ends. The heap's census is the same after it.
fn end_of(alloc: Global, row: Row) -> Result<String, Fail> {
    let heap = heap_named(alloc, row.heap)?;
    let before = seen(alloc, alloc, &heap, &[])?;
    let events = events_of(alloc, row.events)?;
    let (answer, comes_next) = ran(alloc, &heap, &events)?;
    if seen(alloc, alloc, &heap, &[])? != before {
        return Err(Fail::from("another census"));
    }
    told(alloc, answer, comes_next)
}

/// Asserts that a schedule ends as its row says.
fn assert_row(rt: &impl Abort, alloc: Global, row: Row) -> Result<(), Fail> {
    let end = end_of(alloc, row)?;
    assert_eq!(rt; end.as_str(), row.ends, "of: {}", row.name);
    Ok(())
}

#[test]
fn each_schedule_ends_as_told(rt: HostRuntime) -> Result<(), Fail> {
    for text in ROWS.split("== ").skip(1) {
        match row_of(text) {
            Some(row) => assert_row(&rt, rt.alloc(), row)?,
            None => assert!(rt; false, "no row: {text}"),
        }
    }
    Ok(())
}
