//! A tree of 5,000 objects of four words, whose last two lead back to near its root, collected by 1, 2, 7 and 16 workers on
//! threads of their own over both kinds of cells, and what each run prints. Object k has the plain word k, and leads to the
//! objects 2 k + 1 and 2 k + 2.
use crate::program::assert_output;
use std::alloc::{AllocError, Global};
use std::fmt::Write;

/// How many objects the tree has.
const COUNT: u64 = 5000;

/// Makes object `k`, and lets the one above it lead to it.
fn push_object(text: &mut String, k: u64) -> Result<(), AllocError> {
    writeln!(text, "new n{k} 0 2 1")?;
    if k == 0 {
        return Ok(());
    }
    let (above, field) = ((k - 1) / 2, (k - 1) % 2);
    writeln!(text, "put n{k} 0 {k}\nset n{above} {field} n{k}")
}

fn push_objects(text: &mut String) -> Result<(), AllocError> {
    for k in 0..COUNT {
        push_object(text, k)?;
    }
    Ok(())
}

/// Only the names of the first two objects stay.
fn push_drops(text: &mut String) -> Result<(), AllocError> {
    for k in 2..COUNT {
        writeln!(text, "drop n{k}")?;
    }
    Ok(())
}

fn trace_of(alloc: Global) -> Result<String, AllocError> {
    let mut text = String::new(alloc);
    push_objects(&mut text)?;
    text.push_str("set n4999 0 n1\nset n4998 0 n2\n")?;
    push_drops(&mut text)?;
    text.push_str("collect 0\ncensus\nheap\n")?;
    Ok(text)
}

/// What the run prints before the objects.
const COUNTS: &str = "collected 0: 5000 kept, 0 freed
gen 0 step 0: 0 objects 0 words
gen 0 step 1: 5000 objects 20000 words
gen 1 step 0: 0 objects 0 words
large: 0 objects 0 words
roots: 2
remembered: 0
root n0 #1
root n1 #2
";

/// A field that leads to object `k`, where there is one.
fn push_field(text: &mut String, k: u64) -> Result<(), AllocError> {
    if k < COUNT {
        write!(text, "#{}", k.saturating_add(1))
    } else {
        text.push_str("nil")
    }
}

/// The object that the first field of object `k` leads to: the last two lead back.
fn first_of(k: u64) -> u64 {
    match k {
        4998 => 2,
        4999 => 1,
        _ => k.saturating_mul(2).saturating_add(1),
    }
}

fn push_line(text: &mut String, k: u64) -> Result<(), AllocError> {
    write!(text, "#{} gen 0 step 1 ptrs [", k.saturating_add(1))?;
    push_field(text, first_of(k))?;
    text.push_str(" ")?;
    push_field(text, k.saturating_mul(2).saturating_add(2))?;
    writeln!(text, "] words [{k}]")
}

fn output_of(alloc: Global) -> Result<String, AllocError> {
    let mut text = String::new(alloc);
    text.push_str(COUNTS)?;
    for k in 0..COUNT {
        push_line(&mut text, k)?;
    }
    Ok(text)
}

/// Runs by 1, 2, 7 and 16 workers, over both kinds of cells.
const RUNS: &str = "gctrace run --nursery=64 --threads=1 --cells=box
gctrace run --nursery=64 --threads=1 --cells=word
gctrace run --nursery=64 --threads=2 --cells=box
gctrace run --nursery=64 --threads=2 --cells=word
gctrace run --nursery=64 --threads=7 --cells=box
gctrace run --nursery=64 --threads=7 --cells=word
gctrace run --nursery=64 --threads=16 --cells=box
gctrace run --nursery=64 --threads=16 --cells=word
";

#[test]
fn each_number_of_threads_prints_the_same(rt: HostRuntime) -> Result<(), AllocError> {
    let trace = trace_of(rt.alloc())?;
    let output = output_of(rt.alloc())?;
    for words in RUNS.lines() {
        assert_output(&rt, words, trace.as_str(), output.as_str())?;
    }
    Ok(())
}
