//! A trace of 200 large objects with names, each of which leads to 20 small ones, in blocks of 64 words, and what it prints.
use crate::names::name_of;
use crate::program::assert_output;
use std::alloc::{AllocError, Global};
use std::fmt::Write;

/// What stands in the first word of a small object.
fn mark_of(k: u16, other: u16) -> u64 {
    (k as u64) * 100 + other as u64
}

/// A small object to which a large one leads, and which has no name.
fn push_small(text: &mut String, k: u16, other: u16) -> Result<(), AllocError> {
    let (name, mark) = (name_of(k), mark_of(k, other));
    writeln!(
        text,
        "new o 0 0 3\nput o 0 {mark}\nset r{name} {other} o\ndrop o"
    )
}

/// A large object with the small ones to which it leads.
fn push_large(text: &mut String, k: u16) -> Result<(), AllocError> {
    let name = name_of(k);
    writeln!(text, "new r{name} 0 20 1")?;
    for other in 0..20 {
        push_small(text, k, other)?;
    }
    Ok(())
}

/// Fifty of them, which the nursery holds, and a collection.
fn push_group(text: &mut String, from: u16, to: u16) -> Result<(), AllocError> {
    for k in from..to {
        push_large(text, k)?;
    }
    writeln!(text, "collect 0")
}

/// Drops each second name.
fn push_drops(text: &mut String) -> Result<(), AllocError> {
    for k in 0..200 {
        if k % 2 == 0 {
            let name = name_of(k);
            writeln!(text, "drop r{name}")?;
        }
    }
    writeln!(text, "collect 1\ncensus\nheap")
}

fn trace_of(alloc: Global) -> Result<String, AllocError> {
    let mut text = String::new(alloc);
    push_group(&mut text, 0, 50)?;
    push_group(&mut text, 50, 100)?;
    push_group(&mut text, 100, 150)?;
    push_group(&mut text, 150, 200)?;
    writeln!(&mut text, "census")?;
    push_drops(&mut text)?;
    Ok(text)
}

/// What the collections and censuses print.
const COUNTS: &str = "collected 0: 1050 kept, 0 freed
collected 0: 2100 kept, 0 freed
collected 0: 2100 kept, 0 freed
collected 0: 2100 kept, 0 freed
gen 0 step 0: 0 objects 0 words
gen 0 step 1: 1000 objects 4000 words
gen 1 step 0: 3000 objects 12000 words
large: 200 objects 4400 words
roots: 200
remembered: 0
collected 1: 2100 kept, 2100 freed
gen 0 step 0: 0 objects 0 words
gen 0 step 1: 0 objects 0 words
gen 1 step 0: 2000 objects 8000 words
large: 100 objects 2200 words
roots: 100
remembered: 0
";

/// The lines of the roots that are left. The `i`-th is that of large object `2 i + 1`.
fn push_roots(text: &mut String) -> Result<(), AllocError> {
    for i in 0..100 {
        let (name, number) = (name_of(i * 2 + 1), i + 1);
        writeln!(text, "root r{name} #{number}")?;
    }
    Ok(())
}

/// The line of a large object: its small ones are numbered after all large ones, in order.
fn push_large_line(text: &mut String, i: u16) -> Result<(), AllocError> {
    let number = i as u64 + 1;
    write!(text, "#{number} gen 1 step 0 ptrs [")?;
    for other in 0..20 {
        let target = 101 + (i as u64) * 20 + other;
        if other > 0 {
            write!(text, " ")?;
        }
        write!(text, "#{target}")?;
    }
    writeln!(text, "] words [0]")
}

/// The lines of the small ones to which the `i`-th line's object, large object `k`, leads.
fn push_small_lines(text: &mut String, i: u16, k: u16) -> Result<(), AllocError> {
    for other in 0..20 {
        let number = 101 + (i as u64) * 20 + other as u64;
        let mark = mark_of(k, other);
        writeln!(text, "#{number} gen 1 step 0 ptrs [] words [{mark} 0 0]")?;
    }
    Ok(())
}

fn push_large_lines(text: &mut String) -> Result<(), AllocError> {
    for i in 0..100 {
        push_large_line(text, i)?;
    }
    Ok(())
}

fn push_all_small_lines(text: &mut String) -> Result<(), AllocError> {
    for i in 0..100 {
        push_small_lines(text, i, i * 2 + 1)?;
    }
    Ok(())
}

fn heap_of(alloc: Global) -> Result<String, AllocError> {
    let mut text = String::new(alloc);
    write!(&mut text, "{COUNTS}")?;
    push_roots(&mut text)?;
    push_large_lines(&mut text)?;
    push_all_small_lines(&mut text)?;
    Ok(text)
}

#[test]
fn two_hundred_large_objects(rt: HostRuntime) -> Result<(), AllocError> {
    let trace = trace_of(rt.alloc())?;
    let output = heap_of(rt.alloc())?;
    let words = "gctrace run --block-words 64 --nursery 64";
    assert_output(&rt, words, trace.as_str(), output.as_str())
}
