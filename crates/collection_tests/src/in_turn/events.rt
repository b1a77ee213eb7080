//! Events by number, and each list of at most three of them.
use crate::heaps::{heap_of, seen};
use heap::{Heap, Sizes};
use machine::{Event, Machine, StepError};
use std::alloc::Global;
use std::test::Fail;

/// How many events of a worker `event_at` tells apart.
pub(crate) const EVENTS: u32 = 40;

/// The event of worker `t` that is numbered so, the last for all numbers from 39 on. What it takes of each of 16 workers
/// comes in turn, from worker `first` on, and so do 16 destinations.
pub(crate) fn event_at(number: u32, t: u32, first: u32) -> Event {
    match number {
        0 => Event::Race(t),
        1 => Event::Look(t),
        2 => Event::Scan(t),
        3 => Event::Export(t),
        4..=19 => Event::Take(t, number.wrapping_add(first).wrapping_sub(4) % 16),
        20..=35 => Event::Own(t, number.wrapping_sub(20) as usize),
        36 => Event::OwnLarge(t),
        37 => Event::Idle(t),
        38 => Event::Wake(t),
        _ => Event::End(t),
    }
}

/// The number that a word writes.
fn number_of(word: &str) -> Result<u32, Fail> {
    Ok(word.parse::<u32>()?)
}

/// The event of a word and of the worker's number.
fn event_of_worker(word: &str, t: u32) -> Result<Event, Fail> {
    match word {
        "look" => Ok(Event::Look(t)),
        "race" => Ok(Event::Race(t)),
        "scan" => Ok(Event::Scan(t)),
        "export" => Ok(Event::Export(t)),
        "idle" => Ok(Event::Idle(t)),
        "wake" => Ok(Event::Wake(t)),
        "end" => Ok(Event::End(t)),
        _ => Err(Fail::from("no such event")),
    }
}

/// The event of a word, of the worker's number, and of a word behind that.
fn event_with(word: &str, t: u32, last: &str) -> Result<Event, Fail> {
    match (word, last) {
        ("take", _) => Ok(Event::Take(t, number_of(last)?)),
        ("own", "large") => Ok(Event::OwnLarge(t)),
        ("own", _) => Ok(Event::Own(t, number_of(last)? as usize)),
        _ => Err(Fail::from("no such event")),
    }
}

/// The event of a line, in the words of a schedule.
pub(crate) fn event_of(line: &str) -> Result<Event, Fail> {
    let (word, rest) = line.split_once(" ").ok_or("no worker")?;
    match rest.split_once(" ") {
        Some((worker, last)) => event_with(word, number_of(worker)?, last),
        None => event_of_worker(word, number_of(rest)?),
    }
}

/// A heap of one object with a root.
fn heap_of_one(alloc: Global) -> Result<Heap, Fail> {
    let sizes = Sizes {
        block_words: 64,
        blocks: 2,
        mutators: 1,
        nursery_blocks: 1,
        generations: 1,
        steps: 1,
    };
    let mut heap = heap_of(alloc, sizes)?;
    let _root = heap.allocate(0, 1, 1)?;
    Ok(heap)
}

/// The events of a worker that is alone, with one destination.
const OF_ONE: [Event; 10] = [
    Event::Race(0),
    Event::Look(0),
    Event::Scan(0),
    Event::Export(0),
    Event::Take(0, 0),
    Event::Own(0, 0),
    Event::OwnLarge(0),
    Event::Idle(0),
    Event::Wake(0),
    Event::End(0),
];

/// The list of three events of one worker that is numbered so, below 1,000.
fn three_events(number: usize) -> [Event; 3] {
    [
        OF_ONE[number / 100 % 10],
        OF_ONE[number / 10 % 10],
        OF_ONE[number % 10],
    ]
}

/// The only events that can come first: the worker looks at the root, wins the race for the object, and owns its block.
const ONLY: [Event; 3] = [Event::Look(0), Event::Race(0), Event::Own(0, 0)];

/// How such a list ends: it stops at the first event that can't come.
fn expected(events: &[Event]) -> Result<(), (usize, StepError)> {
    for (i, (event, only)) in events.iter().zip(ONLY.iter()).enumerate() {
        if event != only {
            return Err((i, StepError::NotLawful));
        }
    }
    Ok(())
}

/// Whether a list of events of one worker ends so.
fn ends_so(alloc: Global, heap: &Heap, events: &[Event]) -> Result<bool, Fail> {
    let mut machine = Machine::open(alloc, heap, 0, 1)?;
    Ok(machine.run(events) == expected(events))
}

/// The first list of so many events, at most three, that ends otherwise, or after which the census is another.
fn first_other(alloc: Global, heap: &Heap, len: usize) -> Result<Option<usize>, Fail> {
    let before = seen(alloc, alloc, heap, &[])?;
    for number in 0..1000 {
        let events = three_events(number);
        let (events, _rest) = events.split_at(len.min(3));
        if !ends_so(alloc, heap, events)? || seen(alloc, alloc, heap, &[])? != before {
            return Ok(Some(number));
        }
    }
    Ok(None)
}

#[test]
fn each_list_of_at_most_three_events(rt: HostRuntime) -> Result<(), Fail> {
    let heap = heap_of_one(rt.alloc())?;
    for len in 0..=3 {
        assert!(&rt; first_other(rt.alloc(), &heap, len)?.is_none());
    }
    Ok(())
}
