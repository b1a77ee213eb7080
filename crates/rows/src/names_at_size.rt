//! A trace of 70,000 names, 60,000 of them of large objects that take a block each, by one worker, by two threads, and by two
//! workers in turn: all are counted, and shown.
use crate::program::{Ended, assert_output, ran, text_of};
use std::alloc::{AllocError, AllocGlobal, Global};
use std::fmt::Write;
use std::process::Abort;
use std::random::RandomSource;
use std::sync::Wait;
use std::thread::Threads;

/// How many names there are: more than 16 bits number.
const NAMES: u32 = 70_000;

/// How many large objects there are. The others are small, and 16 mutators share them.
const LARGE: u32 = 60_000;

/// What is counted when all are kept.
const COUNTS: &str = "gen 0 step 0: 10000 objects 10000 words
large: 60000 objects 600000 words
roots: 70000
remembered: 0
";

/// The number in the first name, so that all names have as many digits, and come in order.
const FIRST: u32 = 10_000;

/// A line that makes the object of this number.
fn push_object(text: &mut String, number: u32) -> Result<(), AllocError> {
    let (mutator, plain) = if number < LARGE {
        (0, 9)
    } else {
        (number % 16, 0)
    };
    let name = number.saturating_add(FIRST);
    writeln!(text, "new n{name} {mutator} 0 {plain}")
}

/// The objects, so many lines that collect them, and a census and the heap.
fn trace_of(alloc: Global, collection: &str) -> Result<String, AllocError> {
    let mut text = String::new(alloc);
    for number in 0..NAMES {
        push_object(&mut text, number)?;
    }
    writeln!(&mut text, "{collection}")?;
    writeln!(&mut text, "census")?;
    writeln!(&mut text, "heap")?;
    Ok(text)
}

/// What is shown of the heap: a line for each root, and then one for each object, of which none leads anywhere.
fn push_heap(text: &mut String) -> Result<(), AllocError> {
    for number in 0..NAMES {
        let (name, shown) = (number.saturating_add(FIRST), number.saturating_add(1));
        writeln!(text, "root n{name} #{shown}")?;
    }
    for number in 0..NAMES {
        let words = if number < LARGE {
            "0 0 0 0 0 0 0 0 0"
        } else {
            ""
        };
        let shown = number.saturating_add(1);
        writeln!(text, "#{shown} gen 0 step 0 ptrs [] words [{words}]")?;
    }
    Ok(())
}

/// A command line for as many blocks as there may be.
fn words_of(alloc: Global, words: &str) -> Result<String, AllocError> {
    format!(in alloc;
        "{words} --generations 1 --block-words 16 --blocks 65535 --mutators 16 --nursery 64"
    )
}

/// What a run prints of the census and of the heap.
fn shown_of(alloc: Global) -> Result<String, AllocError> {
    let mut text = String::new(alloc);
    write!(&mut text, "{COUNTS}")?;
    push_heap(&mut text)?;
    Ok(text)
}

/// What a run prints.
fn output_of(alloc: Global) -> Result<String, AllocError> {
    let mut text = String::new(alloc);
    writeln!(&mut text, "collected 0: {NAMES} kept, 0 freed")?;
    write!(&mut text, "{COUNTS}")?;
    push_heap(&mut text)?;
    Ok(text)
}

#[test]
fn seventy_thousand_names(rt: HostRuntime) -> Result<(), AllocError> {
    let trace = trace_of(rt.alloc(), "collect 0")?;
    let output = output_of(rt.alloc())?;
    for words in [
        "gctrace run",
        "gctrace run --threads 2",
        "gctrace run --threads 2 --cells box",
    ] {
        let words = words_of(rt.alloc(), words)?;
        assert_output(&rt, words.as_str(), trace.as_str(), output.as_str())?;
    }
    Ok(())
}

/// Whether the run ended well, and its last lines count and show all.
fn is_shown(ended: &Ended, shown: &str) -> bool {
    ended.status == 0 && ended.output.as_slice().ends_with(shown.as_bytes())
}

/// Asserts that two workers in turn keep all, each event the one that comes next by itself.
fn assert_replayed<R: Threads + Wait + Sync + AllocGlobal + RandomSource + Abort>(
    rt: &R,
) -> Result<(), AllocError> {
    let trace = trace_of(rt.alloc(), "collect 0\nfinish\ncommit")?;
    let words = words_of(rt.alloc(), "gctrace replay --threads 2")?;
    let ended = ran(rt, words.as_str(), trace.as_str().as_bytes())?;
    let shown = shown_of(rt.alloc())?;
    assert!(rt;
        is_shown(&ended, shown.as_str()),
        "{}",
        text_of(ended.errors.as_slice())
    );
    Ok(())
}

#[test]
fn seventy_thousand_names_by_schedule(rt: HostRuntime) -> Result<(), AllocError> {
    assert_replayed(&rt)
}
